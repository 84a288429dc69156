//! The laws of Paxos.

ghost use Rattle.hk_paxos.specs.Run.{Agreement};
ghost use Rattle.hk_paxos.specs.Validity.{Validity};
ghost use Rattle.hk_paxos.specs.Worked.{Overtaken};

/// Over every run of one instance: two chosen views are equal, and a view that a proposer reports is chosen.
pub fn agreement()
    ensures { Agreement }
{}

/// Over every run of one instance: each view that is accepted, proposed again or reported was proposed by a manager as its own.
pub fn validity()
    ensures { Validity }
{}

/// A run that is worked by hand: two managers propose, the second overtakes the first and learns of its view, which is
/// chosen.
pub fn worked_run()
    ensures { Overtaken }
{}
