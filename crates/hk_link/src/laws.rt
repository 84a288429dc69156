//! What the clauses of links come down to where an end has a whole right.

ghost use Rattle.std.specs.Prelude.{◌≡◌, ◌≤◌, ◌^◌, List, ℕ, ◌++◌, length};
ghost use mathlib.Core.List.{IsPrefix};
ghost use Rattle.hk_link.specs.Share.{all, halved, deepest, sizes, IsWhole};
ghost use Rattle.hk_link.specs.Ends.{End, WasFull, WasEmpty};

/// A link is full for its one outlet only once that has put as many parcels as there is room for. It is empty for its one inlet only once that has taken all that
/// it was told was put.
pub fn lone_ends_wait_for_a_reason()
    ensures full { (outlet : End) → WasFull outlet → IsWhole outlet.known.put.share → outlet.room ≤ length outlet.known.put.seen }
    ensures empty { (inlet : End) → WasEmpty inlet → IsWhole inlet.known.taken.share → IsPrefix inlet.known.put.seen inlet.known.taken.seen }
{}

/// A new link's outlet has the whole right to put, its inlet the whole right to take; the two halves of a whole right make it again. Whether pieces make the whole
/// can be computed, at any one scale that is deep enough.
pub fn halves_make_the_whole()
    ensures first { IsWhole all }
    ensures again { (share : List ℕ) → IsWhole share → IsWhole (halved share ++ halved share) }
    ensures at_one_scale { (share : List ℕ) (scale : ℕ) → deepest share ≤ scale → sizes scale share ≡ 2 ^ scale → IsWhole share }
{}
