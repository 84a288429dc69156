//! What a group is to be.

/// A group of nodes that one program runs, and the connections that it is to serve.
#[derive(Clone, Copy, Debug, PartialEq, Eq)]
pub struct Group {
    /// How many nodes, 1 to 16.
    pub nodes: u8,
    /// How many workers each node has.
    pub workers: u8,
    /// How many managers there are of each shard number, at most 9. With none, the leases of the nodes are never over.
    pub managers: u8,
    /// How long a lease is, in milliseconds.
    pub lease: u64,
    /// By how many milliseconds two clocks may differ.
    pub skew: u64,
    /// The port of 127.0.0.1 that is opened.
    pub port: u16,
    /// After so many connections the server is done.
    pub conns: u32,
}
