//! Mistakes of the simulator itself, each of which it must tell.

/// A mistake of the simulator.
#[derive(Clone, Copy, Debug, PartialEq, Eq)]
pub enum Mistake {
    /// There is none.
    Nothing,
    /// The clocks of most managers go three times too fast.
    HastyClocks,
    /// A number that is given to one process is given to all, and taken unclaimed.
    SharedNumbers,
    /// A process begins with an empty disk.
    EmptyDisks,
    /// Nodes get no lease.
    DeafNodes,
    /// `init` founds the group at all managers but the first one.
    ShortInits,
}

const WORDS: [(&str, Mistake); 5] = [
    ("hasty-clocks", Mistake::HastyClocks),
    ("shared-numbers", Mistake::SharedNumbers),
    ("empty-disks", Mistake::EmptyDisks),
    ("deaf-nodes", Mistake::DeafNodes),
    ("short-inits", Mistake::ShortInits),
];

/// The mistake of this word.
pub fn mistake_of(word: &str) -> Option<Mistake> {
    for (name, mistake) in &WORDS {
        if *name == word {
            return Some(*mistake);
        }
    }
    None
}
