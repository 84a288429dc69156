//! What the program is to do.

use std::io;

/// What each thread does.
#[derive(Clone, Copy, Debug, PartialEq, Eq)]
pub enum Kind {
    /// Calls a read under the lock.
    Get,
    /// Calls a write of 100 bytes under the lock.
    Set,
    /// Reads what the shard shows, without the lock.
    Local,
}

/// What the first line of the input says.
#[derive(Clone, Copy, Debug)]
pub struct Plan {
    pub kind: Kind,
    pub threads: u64,
    /// How often each thread does it.
    pub count: u64,
    pub keys: u64,
    /// At so many entries the journal is handed out; 0: never.
    pub entries: u64,
}

fn kind_of(word: Option<&str>) -> Kind {
    match word {
        Some("set") => Kind::Set,
        Some("local") => Kind::Local,
        _ => Kind::Get,
    }
}

fn number(word: Option<&str>) -> u64 {
    match word {
        Some(word) => word.parse::<u64>().unwrap_or(0),
        None => 0,
    }
}

/// Reads the plan. What is missing counts as 0.
pub fn read_plan<R: Input + Alloc>(rt: &R) -> io::Result<Plan> {
    let mut line = String::new(rt.alloc());
    rt.read_line(&mut line)?;
    let mut words = line.split_ascii_whitespace();
    Ok(Plan {
        kind: kind_of(words.next()),
        threads: number(words.next()),
        count: number(words.next()),
        keys: number(words.next()),
        entries: number(words.next()),
    })
}
