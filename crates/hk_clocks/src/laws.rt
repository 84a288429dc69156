//! What holds of all clocks.

ghost use Rattle.hk_clocks.specs.Laws.{LeadsDecide, RunPaced, RefusedExactly, OthersStay, FirstLeftTold, StopUndoesStart};

/// The leads of a pair are within the skew exactly where its clocks keep the rate.
pub fn leads_decide()
    ensures { LeadsDecide }
{}

/// The clocks of each run keep the rate.
pub fn run_paced()
    ensures { RunPaced }
{}

/// A rise is refused for a pair exactly where the pair would not keep the rate with it; and for a tick of one actor only pairs
/// count of which it is the first.
pub fn refused_exactly()
    ensures exactly { RefusedExactly }
    ensures others { OthersStay }
{}

/// A tick that is made keeps the rate, and one that is refused for the skew tells the first actor with which it would not be kept.
pub fn first_left_told()
    ensures { FirstLeftTold }
{}

/// A stop takes back the start of an actor that was not live before.
pub fn stop_undoes_start()
    ensures { StopUndoesStart }
{}
