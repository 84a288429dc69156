//! How much words want to be told, and the words without that.

use hk_host_words::{Verbosity, take_verbosity};
use std::alloc::{AllocError, Global};

fn words_of(alloc: Global, line: &str) -> Result<Vec<String>, AllocError> {
    let mut words = Vec::new(alloc);
    for word in line.split(' ') {
        words.push(String::from_str(alloc, word)?)?;
    }
    Ok(words)
}

// The words with a space between them.
fn line_of(alloc: Global, words: &[String]) -> Result<String, AllocError> {
    let mut line = String::new(alloc);
    let mut between = "";
    for word in words {
        line.push_str(between)?;
        line.push_str(word.as_str())?;
        between = " ";
    }
    Ok(line)
}

static TAKEN: [(&str, Verbosity, &str); 9] = [
    (
        "node --hosts a --at 0",
        Verbosity::Usual,
        "node --hosts a --at 0",
    ),
    (
        "node -v --hosts a --at 0",
        Verbosity::Verbose,
        "node --hosts a --at 0",
    ),
    (
        "node --hosts a -q --at=0",
        Verbosity::Quiet,
        "node --hosts a --at=0",
    ),
    (
        "node --hosts=a --at=0 -q",
        Verbosity::Quiet,
        "node --hosts=a --at=0",
    ),
    // no value of an option is taken
    (
        "node --hosts a --at 0 --data -v",
        Verbosity::Usual,
        "node --hosts a --at 0 --data -v",
    ),
    (
        "node --hosts a --at 0 --data=-v",
        Verbosity::Usual,
        "node --hosts a --at 0 --data=-v",
    ),
    (
        "node --data -q -v --hosts a",
        Verbosity::Verbose,
        "node --data -q --hosts a",
    ),
    // one of two stays, and is no option then
    (
        "node -q --hosts a --at 0 -v",
        Verbosity::Quiet,
        "node --hosts a --at 0 -v",
    ),
    ("node -vv --hosts a", Verbosity::Usual, "node -vv --hosts a"),
];

#[test]
fn the_word_is_taken_out(rt: HostRuntime) {
    let alloc = rt.alloc();
    for (line, verbosity, left) in &TAKEN {
        let mut words = words_of(alloc, line).expect(&rt, "memory");
        let told = take_verbosity(&mut words);
        assert_eq!(rt; told, *verbosity, "{line}");
        let rest = line_of(alloc, &words).expect(&rt, "memory");
        assert_eq!(rt; rest.as_str(), *left);
    }
}
