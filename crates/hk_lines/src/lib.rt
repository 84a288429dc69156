//! Cuts what comes off a socket into the lines and blocks of the memcached text protocol, however it arrived.
//!
//! Bytes are fed in the pieces in which they come. A line ends at the first carriage return that a line feed follows;
//! either of the two alone is a byte like any other. A block has a length that was told before. What is given is a
//! function of the bytes fed, and not of the pieces: that is the law `pieces_do_not_matter`.
//!
//! What is proved. `Cutter::next` gives exactly the step that the bytes fed so far give (`step`, `rest`): TooLong
//! exactly where limit + 2 bytes of a line are there without its end, and Need exactly where nothing else is. A cutter
//! that told TooLong tells it for ever (`too_long_stays`). A `feed` or a `make_room` that finds no memory keeps the
//! bytes that were fed (`err`, `same`).
#![tactic(auto)]

mod cutter;
mod due;
mod step;

ghost use Rattle.hk_lines.specs.Pieces.{PiecesJoin, SkipCommutes, ExpectCommutes, StepStays, LongStays};

pub use cutter::Cutter;
pub use due::Due;
pub use step::Step;

/// How the bytes are cut into pieces makes no difference: two pieces do what the one does that they make, and each
/// other call can as well be made before bytes come as after, `next` as soon as it gives a step.
pub fn pieces_do_not_matter()
    ensures join { PiecesJoin }
    ensures skip { SkipCommutes }
    ensures expect { ExpectCommutes }
    ensures stays { StepStays }
{}

/// A cutter that told TooLong tells it at every step from then on, whatever calls are made between.
pub fn too_long_stays()
    ensures { LongStays }
{}
