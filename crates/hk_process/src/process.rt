//! What a process is to be.

ghost use Rattle.std.specs.Prelude.{◌≡◌};
ghost use Rattle.hk_group.specs.Founding.{IsGroup};
ghost use Rattle.hk_process.specs.Process.{IsProcess, group_of};

use hk_base::MAX_TIME;
use hk_group::Group;

/// A node of a group whose nodes run in processes of their own, and the connections that it is to serve.
#[derive(Clone, Copy, Debug, PartialEq, Eq)]
pub struct Process {
    /// The node's number, below the number of nodes.
    pub id: u8,
    /// How many nodes the group has, 1 to 16.
    pub nodes: u8,
    /// How many workers the node has.
    pub workers: u8,
    /// The port of 127.0.0.1 that node 0 opens. Each other node has the port that is higher by its number.
    pub port: u16,
    /// After so many connections the process is done. Each client counts, and of peers one for each other node.
    pub conns: u32,
}

impl Process {
    /// The node's group, as this process has it.
    pub(crate) fn group(&self) -> Group
        requires { IsProcess self.now }
        ensures same { result ≡ group_of self.now }
        ensures within { IsGroup result }
    {
        Group {
            nodes: self.nodes,
            workers: self.workers,
            managers: 0,
            lease: MAX_TIME,
            skew: 0,
            port: self.port + u16::from(self.id),
            conns: self.conns,
        }
    }
}
