//! What comes to managers, nodes and processes, and the turns of managers.

use crate::happening::{Asker, Happening};
use crate::judge::Judge;
use crate::let_go::let_go;
use crate::mistake::Mistake;
use crate::node::Taken;
use crate::world::World;
use hk_base::{Actor, Body, Memory, NodeId};
use hk_inside::{Inquiry, Response};
use hk_link::Parcel;
use std::alloc::Global;
use std::io::Eprint;
use std::sync::Wait;

// Notes the views that these letters tell as chosen.
fn note_sent(judge: &mut Judge, alloc: Global, sent: &[Happening]) -> Result<(), Memory> {
    for happening in sent {
        if let Happening::Letter { parcel, .. } = happening {
            match &parcel.letter.body {
                Body::Chosen(view) => judge.note_chosen(alloc, parcel.shard, view)?,
                Body::Activate(view) => judge.note_chosen(alloc, parcel.shard, view)?,
                _ => {}
            }
        }
    }
    Ok(())
}

impl<R: Wait + Eprint + Copy + Drop> World<R> {
    /// The manager of a host is to make a turn.
    pub fn schedule_turn(&mut self, at: usize) -> Result<(), Memory> {
        let Some(process) = self.running(at) else {
            return Ok(());
        };
        if process.has_turn || process.manager.is_none() {
            return Ok(());
        }
        process.has_turn = true;
        let life = process.life;
        let delay = self.draws.below(2);
        self.schedule(delay, Happening::Turn { host: at, life })
    }

    /// The manager of a process makes a turn. What it answers and sends goes out behind that.
    pub fn turn(&mut self, at: usize, life: u64) -> Result<(), Memory> {
        let Some(host) = self.hosts.get_mut(at) else {
            return Ok(());
        };
        let Some(process) = &mut host.running else {
            return Ok(());
        };
        if process.life != life {
            return Ok(());
        }
        let mut sent = Vec::new(self.alloc);
        let more = process.turn(self.now, &self.numbers, &mut sent)?;
        if let Some(founding) = process.open_founding() {
            self.judge.note_open(founding);
        }
        note_sent(&mut self.judge, self.alloc, &sent)?;
        self.send_all(at, sent)?;
        if more {
            return self.schedule_turn(at);
        }
        Ok(())
    }

    /// A letter of a group comes to whom it is for.
    pub fn take_letter(&mut self, founding: u64, parcel: Parcel) -> Result<(), Memory> {
        match parcel.letter.to {
            Actor::Manager(place) => self.tell_manager(usize::from(place), founding, parcel),
            Actor::Node(number) => {
                let told = self.tell_node(number, founding, &parcel);
                let_go(parcel);
                told
            }
        }
    }

    // The manager of a host takes a letter.
    fn tell_manager(&mut self, at: usize, founding: u64, parcel: Parcel) -> Result<(), Memory> {
        match self.running(at) {
            Some(process) => process.put_letter(founding, parcel),
            None => let_go(parcel),
        }
        self.schedule_turn(at)
    }

    // The node of this number takes a letter.
    fn tell_node(&mut self, number: NodeId, founding: u64, parcel: &Parcel) -> Result<(), Memory> {
        let alloc = self.alloc;
        let is_deaf = self.mistake == Mistake::DeafNodes;
        let Some(at) = self.host_of(number) else {
            return Ok(());
        };
        let Some(process) = self.running(at) else {
            return Ok(());
        };
        if is_deaf || process.shared.founding() != founding {
            return Ok(());
        }
        let Some(node) = &mut process.node else {
            return Ok(());
        };
        match node.take(alloc, parcel)? {
            Taken::Nothing => Ok(()),
            Taken::Lease => {
                self.check_leases(parcel.shard);
                Ok(())
            }
            Taken::View => self.note_begun(parcel),
        }
    }

    // A view began at a node.
    fn note_begun(&mut self, parcel: &Parcel) -> Result<(), Memory> {
        if let Body::Activate(view) = &parcel.letter.body {
            if self.judge.note_begun(self.alloc, parcel.shard, view)? {
                self.counts.views = self.counts.views.saturating_add(1);
                self.check_leases(parcel.shard);
            }
        }
        Ok(())
    }

    /// An inquiry comes to the manager of a place.
    pub fn take_ask(&mut self, asker: Asker, at: usize, inquiry: Inquiry) -> Result<(), Memory> {
        let until = self.now.saturating_add(self.lease());
        match self.running(at) {
            Some(process) => process.put_ask(asker, until, inquiry)?,
            None => let_go(inquiry),
        }
        self.schedule_turn(at)
    }

    /// What the manager of a place answered comes.
    pub fn take_answer(
        &mut self,
        asker: Asker,
        place: u8,
        response: Response,
    ) -> Result<(), Memory> {
        if asker.is_command {
            let went_on = self.go_on_with_init(asker.life, place, &response);
            let_go(response);
            return went_on;
        }
        self.share_number(&response);
        let now = self.now;
        match self.process(asker.host, asker.life) {
            Some(process) => {
                let asked = process.take_answer(asker, place, now, response);
                self.ask_on(asker.host, asked)
            }
            None => {
                let_go(response);
                Ok(())
            }
        }
    }

    // What the process of a host asks next goes out, and its manager is to make a turn.
    fn ask_on(&mut self, host: usize, asked: Option<Happening>) -> Result<(), Memory> {
        if let Some(inquiry) = asked {
            self.send(host, inquiry)?;
        }
        self.schedule_turn(host)
    }

    // A number that is given to one process is given to all, by mistake.
    fn share_number(&self, response: &Response) {
        if self.mistake != Mistake::SharedNumbers {
            return;
        }
        if let Response::Seated(number) = response {
            for host in &self.hosts {
                if let Some(process) = &host.running {
                    process.take_given(*number);
                }
            }
        }
    }
}
