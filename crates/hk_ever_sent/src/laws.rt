//! What was ever sent.

ghost use Rattle.hk_ever_sent.specs.Worlds.{WorldsSend};

use hk_world::worlds_stay_sound;

/// Every letter that was ever sent in a world, from its start on, is as letters are sent: its parts are in range, and a batch keeps its
/// limit. So it is in range whole, as `hk_sent` says of such letters.
pub fn worlds_send_in_range()
    ensures { WorldsSend }
{
    worlds_stay_sound();
}
