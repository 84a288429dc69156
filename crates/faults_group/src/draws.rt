//! What is drawn.

ghost use Rattle.std.specs.Prelude.{◌<◌};

use hk_fields::Ticket;
use rand_core::utils::NextWord;
use rand_pcg::Pcg32;

/// Draws numbers, the same ones for the same seed.
#[derive(Drop)]
pub struct Draws {
    numbers: Pcg32,
    tickets: u64,
}

impl Draws {
    /// The numbers of this stream of the seed.
    pub fn new(seed: u64, stream: u64) -> Draws {
        Draws {
            numbers: Pcg32::new(seed, stream),
            tickets: 0,
        }
    }

    /// A number below this one; 0 where that is 0.
    pub fn below(&mut self, count: u64) -> u64 {
        let word: u32 = self.numbers.next_word();
        u64::from(word).checked_rem(count).unwrap_or(0)
    }

    /// A place of a list of so many.
    pub fn place(&mut self, count: usize) -> usize
        requires { 0 < count }
        ensures { result < count }
    {
        (self.numbers.next_word() as usize) % count
    }

    /// A number from the least to the most one.
    pub fn within(&mut self, least: u64, most: u64) -> u64 {
        let count = most.saturating_sub(least).saturating_add(1);
        least.saturating_add(self.below(count))
    }

    /// What happens so often in a thousand times.
    pub fn happens(&mut self, often: u64) -> bool {
        self.below(1_000) < often
    }

    /// A ticket that no other process has.
    pub fn ticket(&mut self) -> Ticket {
        self.tickets = self.tickets.wrapping_add(1);
        let [a, b, c, d, e, f, g, h] = self.tickets.to_be_bytes();
        Ticket([7, 7, 7, 7, 7, 7, 7, 7, a, b, c, d, e, f, g, h])
    }
}
