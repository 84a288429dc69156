//! Whether an order is legal, rule by rule.

ghost use Rattle.std.specs.Prelude.{◌≡◌, ℕ, IsTrue, is_some};
ghost use Rattle.hk_history.specs.History.{op_of, IsHistory};
ghost use Rattle.hk_history.specs.Legal.{Stands};
ghost use Rattle.hk_history.specs.Breach.{IsChecked};
ghost use Rattle.hk_history.specs.Cases.{IsIndexed};
ghost use Rattle.hk_history.specs.Rulings.{RuleGives, at_one};

use crate::case::Case;
use crate::event::{Entries, Items};
use crate::fault::{CheckFault, Rule};
use std::alloc::Global;

// The rule is broken at this call, or at none.
fn at_one(rule: Rule, least: Option<u64>) -> Result<(), CheckFault>
    ensures { result ≡ at_one rule least }
{
    match least {
        Some(number) => Err(CheckFault::Breach {
            rule,
            first: number,
            second: number,
        }),
        None => Ok(()),
    }
}

impl<'a> Case<'a> {
    fn check_strangers(&self) -> Result<(), CheckFault>
        requires { IsIndexed self.now }
        ensures { RuleGives Rule.Stranger result self.now.items.now self.now.order.now }
    {
        at_one(Rule::Stranger, self.least_stranger())
    }

    fn check_twice(&self) -> Result<(), CheckFault>
        requires { IsIndexed self.now }
        ensures { RuleGives Rule.Twice result self.now.items.now self.now.order.now }
    {
        at_one(Rule::Twice, self.least_twice())
    }

    fn check_void(&self) -> Result<(), CheckFault>
        requires { IsIndexed self.now }
        ensures { RuleGives Rule.Void result self.now.items.now self.now.order.now }
    {
        at_one(Rule::Void, self.least_void())
    }

    fn check_lacking(&self) -> Result<(), CheckFault>
        requires { IsIndexed self.now }
        ensures { RuleGives Rule.Lacking result self.now.items.now self.now.order.now }
    {
        at_one(Rule::Lacking, self.least_lacking())
    }

    fn check_early(&self, alloc: Global) -> Result<(), CheckFault>
        requires indexed { IsIndexed self.now }
        requires history { IsHistory self.now.items.now }
        requires known { (n : ℕ) → Stands self.now.order.now n → IsTrue (is_some (op_of self.now.items.now n)) }
        ensures { RuleGives Rule.Early result self.now.items.now self.now.order.now }
    {
        let nearest = self.nearest(alloc)?;
        let Some(first) = self.least_overtaken(&nearest) else {
            return Ok(());
        };
        let Some(second) = self.least_overtaking(first) else {
            unreachable!()
        };
        Err(CheckFault::Breach {
            rule: Rule::Early,
            first,
            second,
        })
    }

    fn check(&self, alloc: Global) -> Result<(), CheckFault>
        requires indexed { IsIndexed self.now }
        requires history { IsHistory self.now.items.now }
        ensures { IsChecked result self.now.items.now self.now.order.now }
    {
        self.check_strangers()?;
        self.check_twice()?;
        self.check_void()?;
        self.check_lacking()?;
        self.check_early(alloc)?;
        self.check_fold(alloc)
    }
}

/// Checks that the order is legal for the history. It tells the first rule that is broken, in the order strangers,
/// calls that stand twice, void ones, answered ones that lack, early ones, and then the fold from the front; and of
/// the calls at which it is broken those of the least numbers. Takes time in n log n of the calls.
pub fn check_order(alloc: Global, items: &Items, order: &Entries) -> Result<(), CheckFault>
    requires { IsHistory items.now }
    ensures { IsChecked result items.now order.now }
{
    let case = Case::new(alloc, items.as_slice(), order.as_slice())?;
    case.check(alloc)
}
