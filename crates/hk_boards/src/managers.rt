//! Which managers answered, and what they told.

ghost use Rattle.std.specs.Prelude.{◌≡◌, ◌<◌, ◌≤◌, max, IfSome};
ghost use Rattle.std.specs.List.{reduce, filter_map, count_by, position};
ghost use Rattle.hk_boards.specs.Heard.{manager_told};
ghost use Rattle.hk_boards.specs.Managers.{least_heard, answered_lately, is_answered, answered, has_answered, answered_with, majority_answered, founding_told, tells_open, is_open_with, open_founding, managers_told, manager, tells_another, has_another_founding, records_told, tells_records, most_records};

use crate::boards::Boards;
use crate::heard::{
    answered_lately, founding_told, is_answered, manager_told, records_told, tells_another,
    tells_open, tells_records,
};
use crate::told::TicketsTold;
use hk_fields::Ticket;
use hk_roll::named;

impl Boards {
    /// The manager that a newcomer asks for a number: that of the least place which is open and whose last board came
    /// at most `within` milliseconds before `now`.
    pub fn least_heard(&self, now: u64, within: u64) -> Option<u8>
        ensures { result ≡ least_heard now within self.now }
    {
        let place = self.place_heard(now, within)?;
        Some(place as u8)
    }

    fn place_heard(&self, now: u64, within: u64) -> Option<usize>
        ensures exact { result ≡ least_heard now within self.now }
        ensures few { IfSome result (λ place. place < 9) }
    {
        self.heard
            .iter()
            .position(|heard| answered_lately(heard, now, within))
    }

    fn count_answered(&self, since: u64) -> usize
        ensures exact { result ≡ answered since self.now }
        ensures few { result ≤ 9 }
    {
        self.heard
            .iter()
            .filter(|heard| is_answered(heard, since))
            .count()
    }

    // Whether the one of this place did.
    fn has_answered(&self, own: u8, since: u64) -> bool
        ensures { result ≡ has_answered own since self.now }
    {
        match self.of(own) {
            Some(heard) => since < heard.asked,
            None => false,
        }
    }

    fn answered_with(&self, own: u8, since: u64) -> usize
        ensures { result ≡ answered_with own since self.now }
    {
        let answered = self.count_answered(since);
        if self.has_answered(own, since) {
            answered
        } else {
            answered + 1
        }
    }

    /// Whether the managers are a majority that answered what was asked behind a reading, the one of place `own` counted
    /// whether it did or not. A manager acts only then, by the reading from which on its process reports that it is open.
    pub fn majority_answered(&self, own: u8, since: u64) -> bool
        ensures { result ≡ majority_answered own since self.now }
    {
        self.managers() / 2 < self.answered_with(own, since)
    }

    fn count_another(&self, founding: u64) -> usize
        ensures { result ≡ count_by (tells_another founding) self.now }
    {
        self.heard
            .iter()
            .filter(|heard| tells_another(heard, founding))
            .count()
    }

    /// Whether a majority is open with another founding, by its last boards: this process is of a group that is no
    /// more.
    pub fn has_another_founding(&self, founding: u64) -> bool
        ensures { result ≡ has_another_founding founding self.now }
    {
        self.managers() / 2 < self.count_another(founding)
    }

    fn count_open(&self, founding: u64) -> usize
        ensures { result ≡ count_by (tells_open founding) self.now }
    {
        self.heard
            .iter()
            .filter(|heard| tells_open(heard, founding))
            .count()
    }

    fn is_open_with(&self, founding: u64) -> bool
        ensures { result ≡ is_open_with self.now founding }
    {
        self.managers() / 2 < self.count_open(founding)
    }

    /// The founding with which a majority is open, by its last boards, if there is one.
    pub fn open_founding(&self) -> Option<u64>
        ensures { result ≡ open_founding self.now }
    {
        self.heard
            .iter()
            .filter_map(|heard| founding_told(heard))
            .find(|founding| self.is_open_with(*founding))
    }

    fn managers_told(&self, founding: u64, place: u8) -> TicketsTold
        ensures { result ≡ managers_told founding place self.now }
    {
        let mut told = TicketsTold::none();
        for heard in &self.heard {
            told.push(manager_told(heard, founding, place));
        }
        told
    }

    /// The ticket to which the last boards of a majority bind the manager of this place, if there is one.
    pub fn manager(&self, founding: u64, place: u8) -> Option<Ticket>
        ensures { result ≡ manager founding place self.now }
    {
        named(self.managers_told(founding, place).as_slice())
    }

    fn greatest_records(&self) -> Option<u64>
        ensures { result ≡ reduce max (filter_map records_told self.now) }
    {
        self.heard
            .iter()
            .filter_map(|heard| records_told(heard))
            .max()
    }

    fn place_telling(&self, records: u64) -> Option<usize>
        ensures exact { result ≡ position (tells_records records) self.now }
        ensures few { IfSome result (λ place. place < 9) }
    {
        self.heard
            .iter()
            .position(|heard| tells_records(heard, records))
    }

    /// The most records of the asker's manager that any last board tells, and the least place whose board tells it.
    /// Where the asker's manager has fewer, its log lost its tail.
    pub fn most_records(&self) -> Option<(u8, u64)>
        ensures { result ≡ most_records self.now }
    {
        let records = self.greatest_records()?;
        let place = self.place_telling(records)?;
        Some((place as u8, records))
    }
}
