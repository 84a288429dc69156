//! What the grammar promises.

ghost use Rattle.hk_script.specs.Reading.{LinesTellEvents, LinesTellHeaders};

/// No line is two events', and none is two headers'.
pub fn lines_are_one()
    ensures events { LinesTellEvents }
    ensures headers { LinesTellHeaders }
{}
