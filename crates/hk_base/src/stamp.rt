//! Stamps, which order the updates of a key.

ghost use Rattle.std.specs.Prelude.{◌≡◌, ◌≤◌};
ghost use Rattle.hk_base.specs.declared.stamp.TheConstants.{MAX_VERSION};

/// The number of a node.
#[derive(Clone, Copy, Debug, PartialEq, Eq, PartialOrd, Ord)]
pub struct NodeId(pub u16);

/// The kind of an update.
#[derive(Clone, Copy, Debug, PartialEq, Eq)]
pub enum Kind {
    /// It was begun whatever the key held. It steps the version by two.
    Write,
    /// It rests on what the key held, a read-modify-write. It steps the version by one.
    Rmw,
}

/// The greatest version, 2^48 - 1.
pub const MAX_VERSION: u64 = 281_474_976_710_655;

/// The place of an update among those of its key: by version, then by the node that began it.
/// It is the logical timestamp of the Hermes protocol.
#[derive(Clone, Copy, Debug, PartialEq, Eq, PartialOrd, Ord)]
pub struct Stamp {
    pub version: u64,
    pub node: u16,
}

impl Stamp {
    ghost use Rattle.hk_base.specs.Stamp.{stamp_after, tag_of};

    /// The stamp of a write at the node: two versions on. None exactly where that passes 2^48 - 1.
    pub fn after_write(&self, node: NodeId) -> Option<Stamp>
        ensures { result ≡ stamp_after 2 self.now node.0 }
    {
        self.after(2, node)
    }

    /// The stamp of a read-modify-write at the node: one version on. None exactly where that passes 2^48 - 1.
    pub fn after_rmw(&self, node: NodeId) -> Option<Stamp>
        ensures { result ≡ stamp_after 1 self.now node.0 }
    {
        self.after(1, node)
    }

    fn after(&self, step: u64, node: NodeId) -> Option<Stamp>
        requires { step ≤ MAX_VERSION }
        ensures { result ≡ stamp_after step self.now node.0 }
    {
        if self.version > MAX_VERSION - step {
            return None;
        }
        Some(Stamp {
            version: self.version + step,
            node: node.0,
        })
    }

    /// The stamp as one number, memcached's cas unique: the version times 65,536, and the node.
    pub fn tag(&self) -> u64
        requires { self.now.version ≤ MAX_VERSION }
        ensures { result ≡ tag_of self.now }
    {
        self.version * 65_536 + u64::from(self.node)
    }
}
