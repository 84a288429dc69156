//! The replies of the memcached text protocol, in the profile of this store: their text, both ways.
//!
//! `print_reply` appends the text of a reply, which `text_of` in `specs/Texts.antt` defines by cases. `read_reply` reads
//! the reply that begins some bytes. It wants more exactly in front of a whole reply, and tells a bad byte exactly
//! where no reply goes on. No reply's text begins another's, so what was printed is read again, whatever follows: that
//! is the law `replies_stand_apart`.
//!
//! The clauses: `printed` of `print_reply`, which leaves the output as it was where it finds no memory (`unchanged`),
//! and `exact` and `only` of `read_reply`.
#![tactic(auto)]

mod opening;
mod print;
mod read;
mod reply;
mod scan;

ghost use Rattle.hk_reply.specs.Laws.{NoneBegins, TextsTell};

pub use print::{print_reply, put_end, put_server_error, put_value};
pub use read::{ReplyFault, read_reply};
pub use reply::{ClientText, Item, Reply, ServerText, ValueItems};

/// No reply's text begins another's. And the text of each reply is that of the reply with what its text tells, so
/// `read_reply` gives that one back, whatever follows: tags that are not written are 0, and without values nothing
/// says that tags were wanted.
pub fn replies_stand_apart()
    ensures apart { NoneBegins }
    ensures tell { TextsTell }
{}
