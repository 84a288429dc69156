//! A node's end.

ghost use Rattle.std.specs.Prelude.{◌≡◌, ◌≤◌, length};
ghost use Rattle.hk_lease.specs.Ends.{IsNodeEnd, granted_end};

/// When a node's lease ends: the greatest end that a majority of the managers granted it at least, from one end for
/// each manager, in any order. 0 stands for a manager that granted nothing.
pub fn node_end(ends: &[u64], managers: u8) -> u64
    requires each { length ends.now ≡ managers }
    requires some { 1 ≤ managers }
    ensures majority { IsNodeEnd ends.now result }
    ensures value { result ≡ granted_end ends.now }
{
    // a place for each manager, of whom there are at most 255
    let mut room = [0; 255];
    let rising = &mut room[..ends.len()];
    rising.copy_from_slice(ends);
    rising.sort_unstable();
    rising[(usize::from(managers) - 1) / 2]
}
