//! Whether the calls of runs are those that were drawn.

ghost use Rattle.std.specs.Prelude.{List};
ghost use Rattle.hk_storm.specs.declared.calls.StormCall.{StormCall};
ghost use Rattle.hk_storm.specs.Tallied.{IsTally};
ghost use Rattle.hk_storm.specs.Calls.{AreCompared, AreCounted, IsComparedAt};

use crate::calls::StormCall;
use crate::tally::{Tally, count_of, line_of, tally};
use hk_base::Memory;
use hk_script::lines_are_one;
use std::alloc::Global;

/// The drawn call of that number, counted from 1, was drawn so often and stands in the runs so often. For number 0 it is how many were drawn and stand there in all.
#[derive(Clone, Copy)]
pub struct Unlike {
    pub call: u64,
    pub drawn: u64,
    pub made: u64,
}

// The counts of the drawn call of the number, where they differ.
fn compare_one(
    alloc: Global,
    drawn: &Tally,
    made: &Tally,
    number: u64,
    call: &StormCall,
) -> Result<Option<Unlike>, Memory>
    ensures { (drawn_calls made_calls : List StormCall) → IsTally drawn.now.entries drawn_calls → IsTally made.now.entries made_calls → IsComparedAt result drawn_calls made_calls number call.now }
{
    lines_are_one();
    let line = line_of(alloc, call)?;
    let drawn = count_of(drawn, &line);
    let made = count_of(made, &line);
    if drawn == made {
        return Ok(None);
    }
    Ok(Some(Unlike {
        call: number,
        drawn,
        made,
    }))
}

// How many there are, where that differs.
fn compare_all(drawn: &[StormCall], made: &[StormCall]) -> Option<Unlike>
    ensures { AreCounted result drawn.now made.now }
{
    let drawn = drawn.len() as u64;
    let made = made.len() as u64;
    if drawn == made {
        return None;
    }
    Some(Unlike {
        call: 0,
        drawn,
        made,
    })
}

/// Where the calls that were made are not those that were drawn: the first drawn call that was made more or less often than it was drawn, or else how many there are.
pub fn compare(
    alloc: Global,
    drawn: &[StormCall],
    made: &[StormCall],
) -> Result<Option<Unlike>, Memory>
    ensures { AreCompared result drawn.now made.now }
{
    let drawn_tally = tally(alloc, drawn)?;
    let made_tally = tally(alloc, made)?;
    for (place, call) in drawn.iter().enumerate() {
        let number = place as u64 + 1;
        match compare_one(alloc, &drawn_tally, &made_tally, number, call)? {
            Some(unlike) => return Ok(Some(unlike)),
            None => {}
        }
    }
    Ok(compare_all(drawn, made))
}
