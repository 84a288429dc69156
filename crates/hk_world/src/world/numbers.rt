//! What is numbered from 1.

ghost use Rattle.std.specs.Prelude.{◌≡◌};
ghost use Rattle.std.specs.Option.{option_copied};
ghost use Rattle.hk_world.specs.World.{numbered};

/// What has this number. Letters, and the epochs of views, are numbered from 1.
pub(super) fn numbered<T>(number: u64, items: &[T]) -> Option<&T>
    ensures { option_copied result ≡ numbered number items.now }
{
    if number == 0 {
        return None;
    }
    items.get((number - 1) as usize)
}
