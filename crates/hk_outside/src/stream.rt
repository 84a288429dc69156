//! Where bytes come from and go to.

ghost use Rattle.std.specs.Prelude.{◌≡◌, ◌<◌, ◌≤◌, List, ℕ, Option, None, length, take, Ok, OnOk, OnErr};
ghost use Rattle.std.specs.Io.{ReadsAtMost, WritesAtMost};
ghost use Rattle.std.specs.Io.KnownBytes.{Appends, ReadConsumes, WriteAppends};
ghost use Rattle.hk_outside.specs.Causes.{HasCause, Rose};
ghost use Rattle.hk_outside.specs.Records.{RecordsRead};

use thiserror::Error;

/// The outside failed. The count of faults of the object that was called has risen.
#[derive(Clone, Copy, Debug, PartialEq, Eq, Error)]
#[error("a call of the outside failed")]
pub struct Failed;

/// Gives bytes until its end.
pub trait Source {
    /// The bytes that are left, where the source tells them.
    ghost left: { Self → Option (List ℕ) };

    /// The pieces that it gave, one for each read that was answered, where the source records them. A read into some
    /// room that gives an empty piece is the end.
    ghost given: { Self → Option (List (List ℕ)) } = { λ _. None };

    /// How often it failed.
    ghost faults: { Self → ℕ };

    /// What else the object has, which a read leaves as it is: bytes that were written to it, and how often that
    /// failed.
    ghost beside: { Self → Option (List ℕ) × ℕ };

    /// Reads into the front of the room, and answers how many bytes. To read nothing into some room is the end; a
    /// source that tells its bytes is at its end only where none is left. After `Failed` no byte was taken.
    fn read(&mut self, room: &mut [u8]) -> Result<usize, Failed>
        ensures within { ReadsAtMost result room.new }
        ensures bytes { ReadConsumes (left self.old) (left self.new) result room.new }
        ensures given { RecordsRead (given self.old) (given self.new) result room.new }
        ensures cause { HasCause (faults self.old) (faults self.new) result }
        ensures beside { beside self.new ≡ beside self.old };
}

/// Takes bytes.
pub trait Sink {
    /// The bytes written so far, where the sink tells them.
    ghost held: { Self → Option (List ℕ) };

    /// The pieces that were read from the same object, where it records them, which a write leaves as they are.
    ghost given: { Self → Option (List (List ℕ)) } = { λ _. None };

    /// How often it failed.
    ghost faults: { Self → ℕ };

    /// What else the object has, which a write leaves as it is: bytes that are left to read, and how often that
    /// failed.
    ghost beside: { Self → Option (List ℕ) × ℕ };

    /// Takes some bytes from the front of the piece, and answers how many. To take none of a piece that has some
    /// counts as a fault. After `Failed` none was taken.
    fn write(&mut self, piece: &[u8]) -> Result<usize, Failed>
        ensures within { WritesAtMost result piece.now }
        ensures bytes { WriteAppends (held self.old) (held self.new) result piece.now }
        ensures cause { HasCause (faults self.old) (faults self.new) result }
        ensures given { given self.new ≡ given self.old }
        ensures took_none { result ≡ Ok 0 → 0 < length piece.now → Rose (faults self.old) (faults self.new) }
        ensures beside { beside self.new ≡ beside self.old };
}

/// One object that is both a source and a sink: a read leaves what was written, and a write leaves what is to be read.
pub trait Connection: Source + Sink {
    /// What a read leaves as it is, is what the sink holds and its count.
    ghost read_keeps: { (c : Self) → Self.Source.beside c ≡ (Self.held c, Self.Sink.faults c) };

    /// What a write leaves as it is, is what the source has left and its count.
    ghost write_keeps: { (c : Self) → Self.Sink.beside c ≡ (Self.left c, Self.Source.faults c) };

    /// Both record the same pieces.
    ghost one_record: { (c : Self) → Self.Sink.given c ≡ Self.Source.given c };
}

/// Writes all of the text. After `Failed` a front of it was written, and the sink failed or took none of a piece.
pub fn write_all<K: Sink>(sink: &mut K, text: &[u8]) -> Result<(), Failed>
    ensures all { OnOk result (Appends (K.held sink.old) (K.held sink.new) text.now) }
    ensures front { (n : ℕ) × Appends (K.held sink.old) (K.held sink.new) (take n text.now) }
    ensures later { K.faults sink.old ≤ K.faults sink.new }
    ensures failed { OnErr result (Rose (K.faults sink.old) (K.faults sink.new)) }
{
    let mut at = 0;
    while at < text.len() {
        let (_, rest) = text.split_at(at);
        let Ok(count) = sink.write(rest) else {
            return Err(Failed);
        };
        if count == 0 {
            return Err(Failed);
        }
        at += count;
    }
    Ok(())
}
