//! The last boards of all managers.

ghost use Rattle.std.specs.Prelude.{◌≡◌, ◌≤◌, length, replicate, slice_set, None, Some, IfOk};
ghost use Rattle.std.specs.Option.{option_copied};
ghost use Rattle.hk_boards.specs.Managers.{heard_at};

use crate::heard::HeardBoard;
use hk_base::Memory;
use std::alloc::Global;
use std::marker::Model;

/// The last board of each manager of a group, by the managers' places. Contracts see it as that list.
#[derive(Drop)]
pub struct Boards {
    pub(crate) heard: Vec<Option<HeardBoard>>,
}

impl Model for Boards {
    ghost use Rattle.std.specs.Prelude.{◌≤◌, List, Option, length};
    ghost use Rattle.hk_boards.specs.declared.heard.HeardBoard.{HeardBoard};

    ghost Value = { List (Option HeardBoard) };

    ghost view = { λ boards. boards.heard.items };

    ghost invariant = { λ boards. length boards.heard.items ≤ 9 };
}

impl Boards {
    /// No board of any of so many managers, 1 to 9.
    pub fn new(alloc: Global, managers: u8) -> Result<Boards, Memory>
        requires { managers ≤ 9 }
        ensures { IfOk result (λ boards. boards ≡ replicate managers None) }
    {
        let mut heard = Vec::new(alloc);
        for _ in 0..managers {
            heard.push(None)?;
        }
        Ok(Boards { heard })
    }

    /// Takes a board of the manager of this place for the last one. It is passed over where there is no such manager.
    pub fn hear(&mut self, place: u8, heard: HeardBoard)
        ensures { self.new ≡ slice_set self.old place (Some heard) }
    {
        if let Some(last) = self.heard.get_mut(usize::from(place)) {
            *last = Some(heard);
        }
    }

    /// The last board of the manager of this place, if one came.
    pub fn of(&self, place: u8) -> Option<&HeardBoard>
        ensures { option_copied result ≡ heard_at place self.now }
    {
        match self.heard.get(usize::from(place)) {
            Some(heard) => heard.as_ref(),
            None => None,
        }
    }

    /// How many managers there are.
    pub fn managers(&self) -> usize
        ensures { result ≡ length self.now }
    {
        self.heard.len()
    }
}
