//! The commands `init` and `leave`, as operators type them.

use crate::happening::{Asker, Happening};
use crate::mistake::Mistake;
use crate::phases::Phase;
use crate::world::World;
use hk_base::Memory;
use hk_fields::FoundingHosts;
use hk_inside::{HostTickets, Inquiry, Leaver, Response};
use std::alloc::Global;
use std::io::Eprint;
use std::sync::Wait;

// FOUND goes out within so many milliseconds.
const INIT_LASTS: u64 = 5_000;

/// The command `init`, as it runs.
#[derive(Drop)]
pub struct Command {
    // No other one has it.
    number: u64,
    host: usize,
    founding: u64,
    begun: u64,
    // By places, the tickets of each host that has told how it stands.
    tickets: Vec<Option<HostTickets>>,
    is_sent: bool,
}

impl Command {
    // The tickets of all hosts, once each has told how it stands.
    fn all_tickets(&self, alloc: Global) -> Result<Option<FoundingHosts>, Memory> {
        let mut all = FoundingHosts::new(alloc);
        for tickets in &self.tickets {
            match tickets {
                Some(tickets) => all.push(*tickets)?,
                None => return Ok(None),
            }
        }
        Ok(Some(all))
    }

    fn asker(&self) -> Asker {
        asker_of(self.host, self.number)
    }

    // Notes what a manager answered LOOK. It gives who asks FOUND now, and with which founding, once all have.
    fn note(
        &mut self,
        alloc: Global,
        now: u64,
        place: u8,
        tickets: HostTickets,
    ) -> Result<Option<(Asker, u64, FoundingHosts)>, Memory> {
        if let Some(known) = self.tickets.get_mut(usize::from(place)) {
            *known = Some(tickets);
        }
        if now.saturating_sub(self.begun) > INIT_LASTS {
            return Ok(None);
        }
        let Some(hosts) = self.all_tickets(alloc)? else {
            return Ok(None);
        };
        self.is_sent = true;
        Ok(Some((self.asker(), self.founding, hosts)))
    }
}

// A command asks, which is typed at a host.
fn asker_of(host: usize, number: u64) -> Asker {
    Asker {
        host,
        life: number,
        is_command: true,
        asked: 0,
        claimed: None,
    }
}

impl<R: Wait + Eprint + Copy + Drop> World<R> {
    // A command asks the manager of a place.
    fn ask(&mut self, asker: Asker, place: u8, inquiry: Inquiry) -> Result<(), Memory> {
        let asked = Happening::Ask {
            asker,
            place,
            inquiry,
        };
        self.send(asker.host, asked)
    }

    /// `leave` is typed, so often that the node of a host leaves.
    pub fn leave(&mut self, host: usize, times: u64) -> Result<(), Memory> {
        if times == 0 {
            return Ok(());
        }
        let number = match self.running(host) {
            Some(process) => process.number(),
            None => None,
        };
        if let Some(number) = number {
            for place in 0..self.terms.managers {
                let asker = asker_of(host, 0);
                let inquiry = Inquiry::Leave(Leaver::Node(number));
                self.ask(asker, place, inquiry)?;
            }
        }
        let delay = (self.lease() / 16).saturating_add(1);
        let times = times.saturating_sub(1);
        self.schedule(delay, Happening::Leave { host, times })
    }

    /// `init` is typed again and again, also where the group lives.
    pub fn type_init(&mut self) -> Result<(), Memory> {
        let delay = if self.judge.founding == 0 {
            self.draws.within(11_000, 25_000)
        } else {
            self.lease().saturating_mul(100).saturating_add(20_000)
        };
        self.schedule(delay, Happening::Init)?;
        self.begin_init()
    }

    /// LOOK goes to all managers.
    pub fn begin_init(&mut self) -> Result<(), Memory> {
        let managers = self.terms.managers;
        let founding = self.draws.within(1, u64::from(u32::MAX));
        let command = Command {
            number: self.counts.events,
            host: self.draw_host(),
            founding,
            begun: self.now,
            tickets: vec![in self.alloc; None; usize::from(managers)]?,
            is_sent: false,
        };
        let asker = command.asker();
        // the last four are kept
        self.commands.truncate(3);
        self.commands.insert(0, command)?;
        for place in 0..managers {
            let inquiry = Inquiry::Look { founding };
            self.ask(asker, place, inquiry)?;
        }
        Ok(())
    }

    // The command of this number notes what a manager answered LOOK, if it has not sent FOUND.
    fn note_state(
        &mut self,
        number: u64,
        place: u8,
        tickets: HostTickets,
    ) -> Result<Option<(Asker, u64, FoundingHosts)>, Memory> {
        let (alloc, now) = (self.alloc, self.now);
        for command in self.commands.iter_mut() {
            if command.number == number && !command.is_sent {
                return command.note(alloc, now, place, tickets);
            }
        }
        Ok(None)
    }

    // Whether FOUND goes to the manager of a place. While faults come it may be cut short behind each.
    fn founds_at(&mut self, place: u8) -> bool {
        if self.mistake == Mistake::ShortInits && place == 0 {
            return false;
        }
        self.phase != Phase::Faults || !self.draws.happens(50)
    }

    /// A manager answered a command. Once each has told how it stands FOUND goes to all at once. That is harder than the
    /// real `init`, which asks one behind the other, stops at a refusal, and founds nothing where no node waits.
    pub fn go_on_with_init(
        &mut self,
        number: u64,
        place: u8,
        response: &Response,
    ) -> Result<(), Memory> {
        let Response::State(state) = response else {
            return Ok(());
        };
        match self.note_state(number, place, state.tickets)? {
            Some((asker, founding, all)) => self.found(asker, founding, &all),
            None => Ok(()),
        }
    }

    // FOUND goes to all managers at once.
    fn found(&mut self, asker: Asker, founding: u64, all: &FoundingHosts) -> Result<(), Memory> {
        for place in 0..self.terms.managers {
            let hosts = FoundingHosts::from_vec(all.as_slice().to_vec(self.alloc)?);
            if self.founds_at(place) {
                let inquiry = Inquiry::Found { founding, hosts };
                self.ask(asker, place, inquiry)?;
            }
        }
        Ok(())
    }
}
