//! Parcels of letters that were sent.

ghost use Rattle.std.specs.Prelude.{◌≡◌, ◌<◌};
ghost use Rattle.hk_sent.specs.Sent.{IsSent};

use hk_base::Letter;
use hk_frame::{letter_is_value, letters_fit};
use hk_link::Parcel;

/// A letter of a step, on its way to a shard of its addressee, 0 to 7. It is in range as `steps_send_in_range` says, so nothing is
/// tested.
pub fn parcel(shard: u8, letter: Letter) -> Parcel
    requires shard { shard < 8 }
    requires sent { IsSent letter }
    ensures shard { result.shard ≡ shard }
    ensures letter { result.letter ≡ letter }
{
    letter_is_value(&letter);
    letters_fit();
    Parcel { shard, letter }
}
