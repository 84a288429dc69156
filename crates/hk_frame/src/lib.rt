//! The letters that nodes and managers send each other, as bytes, both ways.
//!
//! A *frame* is a letter of one of a node's 8 shards: a length of what follows, in 4 bytes, and the letter's fields,
//! which `frame` in `specs/Frames.antt` defines by cases. `print_letter` appends the frame of a letter. `read_letter`
//! reads the frame that begins some bytes, whatever they are: it gives a letter exactly where the bytes begin with the
//! frame of one, and else the first fault from the left. No frame begins another, so what was printed is read again,
//! whatever follows: that is the law `frames_stand_apart`.
//!
//! Its caller owes `print_letter` a letter in range that fits a frame. Each letter does but for a copy batch whose keys
//! and data are more than 2,097,152 bytes together, as `letters_fit` says.
//!
//! What is proved beside. Where `print_letter` finds no memory the output is as it was (`unchanged`). What
//! `read_letter` gives is in range and has a frame, and a fault is the first one with the number that it carries
//! (`exact`, `only`). Two letters with one frame are one letter (`one`). A frame is as long as `frame_length` says
//! (`lengths_hold`).
#![tactic(auto)]

mod fault;
mod fields;
mod kind;
mod length;
mod parts;
mod print;
mod read;
mod values;

ghost use Rattle.hk_frame.specs.Laws.{NoneBegins, OneLetter, LengthsHold, AllFit};

pub use fault::FrameFault;
pub use print::print_letter;
pub use read::read_letter;
pub use values::letter_is_value;

/// No frame begins another, and two letters with one frame are one letter, of one shard. So `read_letter` gives back
/// what was printed, whatever follows.
pub fn frames_stand_apart()
    ensures apart { NoneBegins }
    ensures one { OneLetter }
{}

/// A frame is as long as `frame_length` says.
pub fn lengths_hold()
    ensures { LengthsHold }
{}

/// Each letter in range fits a frame, but for a copy batch whose keys and data are more than 2,097,152 bytes together.
pub fn letters_fit()
    ensures { AllFit }
{}
