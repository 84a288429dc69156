//! The network between the hosts.

use crate::draws::Draws;
use hk_base::Memory;
use std::alloc::Global;

/// What becomes of what travels from host to host.
#[derive(Drop)]
pub struct Network {
    /// The longest delay, in milliseconds.
    pub slow: u64,
    /// How much of a thousand is lost.
    pub loss: u64,
    // By the host from which, and that to which, whether nothing comes.
    cuts: Vec<Vec<bool>>,
}

impl Network {
    /// All comes at once between so many hosts.
    pub fn new(alloc: Global, hosts: usize) -> Result<Network, Memory> {
        let mut cuts = Vec::new(alloc);
        for _host in 0..hosts {
            cuts.push(vec![in alloc; false; hosts]?)?;
        }
        Ok(Network {
            slow: 1,
            loss: 0,
            cuts,
        })
    }

    fn set(&mut self, from: usize, to: usize, is_cut: bool) {
        if let Some(cuts) = self.cuts.get_mut(from) {
            if let Some(cut) = cuts.get_mut(to) {
                *cut = is_cut;
            }
        }
    }

    /// Nothing comes from the one host to the other.
    pub fn cut(&mut self, from: usize, to: usize) {
        self.set(from, to, true);
    }

    /// All comes again from the one host to the other.
    pub fn mend(&mut self, from: usize, to: usize) {
        self.set(from, to, false);
    }

    /// Nothing is cut or lost any more, and all is fast.
    pub fn heal(&mut self, slow: u64) {
        self.slow = slow;
        self.loss = 0;
        for cuts in self.cuts.iter_mut() {
            for cut in cuts.iter_mut() {
                *cut = false;
            }
        }
    }

    fn is_cut(&self, from: usize, to: usize) -> bool {
        match self.cuts.get(from) {
            Some(cuts) => match cuts.get(to) {
                Some(cut) => *cut,
                None => true,
            },
            None => true,
        }
    }

    /// For how long what goes from the one host to the other is on its way, if it comes.
    pub fn travels(&self, draws: &mut Draws, from: usize, to: usize) -> Option<u64> {
        if from == to {
            return Some(0);
        }
        if self.is_cut(from, to) || draws.happens(self.loss) {
            return None;
        }
        Some(draws.within(1, self.slow))
    }
}
