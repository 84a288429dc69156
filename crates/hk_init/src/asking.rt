//! What commands run over.

ghost use Rattle.std.specs.Prelude.{List, [], ◌∷◌, Option, None};
ghost use Rattle.hk_inside.specs.Messages.{IsInquiryInRange};
ghost use Rattle.hk_init.specs.Deeds.{Deed, Does};

use crate::fault::NoAnswer;
use hk_inside::{Inquiry, Response};

/// Asks the managers of a group's hosts, over whatever connects to them; it reads a clock, and rests between.
pub trait AskHost {
    /// What it did so far, in order, where it records that.
    ghost deeds: { Self → Option (List Deed) } = { λ _. None };

    /// Asks the manager of the host of this place, counted from 0, and waits for what it answers.
    fn ask(&mut self, place: usize, inquiry: &Inquiry) -> Result<Response, NoAnswer>
        requires { IsInquiryInRange inquiry.now }
        ensures { Does (deeds self.old) (deeds self.new) (Deed.Exchange place inquiry.now result ∷ []) };

    /// The reading of its clock, in milliseconds.
    fn read_clock(&mut self) -> u64
        ensures { Does (deeds self.old) (deeds self.new) (Deed.Reading result ∷ []) };

    /// Rests for so many milliseconds.
    fn rest(&mut self, millis: u64)
        ensures { Does (deeds self.old) (deeds self.new) (Deed.Rest millis ∷ []) };
}
