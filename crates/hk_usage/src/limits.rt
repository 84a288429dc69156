//! The options of the commands.

/// An option that a command wants once, and the numbers that it may be.
#[derive(Clone, Copy, Debug, PartialEq, Eq)]
pub struct Limits {
    /// The option's name, behind its two dashes.
    pub name: &'static str,
    pub least: u64,
    pub most: u64,
}

// The greatest time of a clock, in milliseconds.
const MAX_TIME: u64 = 1_000_000_000_000;

static NONE: [Limits; 0] = [];

static GENERATE: [Limits; 3] = [
    Limits {
        name: "start",
        least: 0,
        most: u64::MAX,
    },
    Limits {
        name: "count",
        least: 1,
        most: 100_000,
    },
    Limits {
        name: "nodes",
        least: 1,
        most: 16,
    },
];

static STORM: [Limits; 4] = [
    Limits {
        name: "start",
        least: 0,
        most: u64::MAX,
    },
    Limits {
        name: "nodes",
        least: 1,
        most: 8,
    },
    Limits {
        name: "workers",
        least: 1,
        most: 8,
    },
    Limits {
        name: "calls",
        least: 1,
        most: 20_000,
    },
];

static SERVE: [Limits; 7] = [
    Limits {
        name: "nodes",
        least: 1,
        most: 16,
    },
    Limits {
        name: "workers",
        least: 1,
        most: 8,
    },
    Limits {
        name: "managers",
        least: 0,
        most: 9,
    },
    Limits {
        name: "lease",
        least: 0,
        most: MAX_TIME,
    },
    Limits {
        name: "skew",
        least: 0,
        most: MAX_TIME,
    },
    Limits {
        name: "port",
        least: 1,
        most: 65_535,
    },
    Limits {
        name: "conns",
        least: 1,
        most: 1_000_000,
    },
];

static PEER: [Limits; 5] = [
    Limits {
        name: "id",
        least: 0,
        most: 15,
    },
    Limits {
        name: "nodes",
        least: 1,
        most: 16,
    },
    Limits {
        name: "workers",
        least: 1,
        most: 8,
    },
    Limits {
        name: "port",
        least: 1,
        most: 65_535,
    },
    Limits {
        name: "conns",
        least: 1,
        most: 1_000_000,
    },
];

static WATCH: [Limits; 1] = [Limits {
    name: "writes",
    least: 1,
    most: 10_000,
}];

static JOINT_STORM: [Limits; 2] = [
    Limits {
        name: "workers",
        least: 1,
        most: 8,
    },
    Limits {
        name: "reads",
        least: 1,
        most: 10_000,
    },
];

/// The options of the command of this name; none where no command has it.
pub fn limits_of(command: &str) -> Option<&'static [Limits]> {
    match command {
        "drill" | "joint" => Some(NONE.as_slice()),
        "generate" => Some(GENERATE.as_slice()),
        "storm" => Some(STORM.as_slice()),
        "serve" => Some(SERVE.as_slice()),
        "peer" => Some(PEER.as_slice()),
        "watch" => Some(WATCH.as_slice()),
        "joint-storm" => Some(JOINT_STORM.as_slice()),
        _ => None,
    }
}
