//! Who holds which number.

ghost use Rattle.std.specs.Prelude.{◌≡◌, ◌/◌, max};
ghost use Rattle.std.specs.List.{find, filter_map, count_by};
ghost use Rattle.std.specs.Option.{option_copied, option_map};
ghost use Rattle.hk_boards.specs.Heard.{tells_out, tells_to_leave};
ghost use Rattle.hk_boards.specs.Holders.{tickets_told, holder, is_out, is_to_leave, came_telling, last_told, is_told_at, newest, address_of};

use crate::boards::Boards;
use crate::heard::{HeardBoard, came_telling, is_told_at, tells_out, tells_to_leave, ticket_told};
use crate::told::TicketsTold;
use hk_base::NodeId;
use hk_fields::Ticket;
use hk_roll::named;

impl Boards {
    /// To which ticket each manager of this founding, if it is open, binds the number by its last board.
    /// [`hk_roll::Roll::claim`] takes it.
    pub fn told_of(&self, founding: u64, node: NodeId) -> TicketsTold
        ensures { result ≡ tickets_told founding node self.now }
    {
        let mut told = TicketsTold::none();
        for heard in &self.heard {
            told.push(ticket_told(heard, founding, node));
        }
        told
    }

    /// The holder of the number: the ticket to which the last boards of a majority bind it, if there is one.
    pub fn holder(&self, founding: u64, node: NodeId) -> Option<Ticket>
        ensures { result ≡ holder founding node self.now }
    {
        named(self.told_of(founding, node).as_slice())
    }

    /// Whether the last boards of a majority tell that the process of this ticket, which had the number, is left out. A
    /// manager that never bound the number to it, and to which it reports by that number, tells so in its line without one.
    pub fn is_out(&self, founding: u64, node: NodeId, ticket: Ticket) -> bool
        ensures { result ≡ is_out founding node ticket self.now }
    {
        self.managers() / 2 < self.count_out(founding, node, ticket)
    }

    fn count_out(&self, founding: u64, node: NodeId, ticket: Ticket) -> usize
        ensures { result ≡ count_by (tells_out founding node ticket) self.now }
    {
        self.heard
            .iter()
            .filter(|heard| tells_out(heard, founding, node, ticket))
            .count()
    }

    /// Whether the last boards of a majority tell that the process of this ticket, which has the number, is to leave.
    pub fn is_to_leave(&self, founding: u64, node: NodeId, ticket: Ticket) -> bool
        ensures { result ≡ is_to_leave founding node ticket self.now }
    {
        self.managers() / 2 < self.count_to_leave(founding, node, ticket)
    }

    fn count_to_leave(&self, founding: u64, node: NodeId, ticket: Ticket) -> usize
        ensures { result ≡ count_by (tells_to_leave founding node ticket) self.now }
    {
        self.heard
            .iter()
            .filter(|heard| tells_to_leave(heard, founding, node, ticket))
            .count()
    }

    fn last_told(&self, founding: u64, node: NodeId, ticket: Ticket) -> Option<u64>
        ensures { result ≡ last_told founding node ticket self.now }
    {
        self.heard
            .iter()
            .filter_map(|heard| came_telling(heard, founding, node, ticket))
            .max()
    }

    fn told_at(
        &self,
        founding: u64,
        node: NodeId,
        ticket: Ticket,
        moment: u64,
    ) -> Option<&Option<HeardBoard>>
        ensures { option_copied result ≡ find (is_told_at founding node ticket moment) self.now }
    {
        self.heard
            .iter()
            .find(|heard| is_told_at(heard, founding, node, ticket, moment))
    }

    // The newest board that binds the number to this ticket and tells its process's address.
    fn newest(&self, founding: u64, node: NodeId, ticket: Ticket) -> Option<&HeardBoard>
        ensures { option_copied result ≡ newest founding node ticket self.now }
    {
        let moment = self.last_told(founding, node, ticket)?;
        match self.told_at(founding, node, ticket, moment) {
            Some(heard) => heard.as_ref(),
            None => None,
        }
    }

    /// The address at which other processes reach the holder of the number, as the newest board tells it that binds the
    /// number to the holder and tells one: a manager that began only now was told none yet.
    pub fn address_of(&self, founding: u64, node: NodeId) -> Option<&[u8]>
        ensures { option_map (λ address. address.now) result ≡ address_of founding node self.now }
    {
        let ticket = self.holder(founding, node)?;
        let heard = self.newest(founding, node, ticket)?;
        match heard.line_of(founding, node) {
            Some(line) => Some(line.inside.as_slice()),
            None => None,
        }
    }
}
