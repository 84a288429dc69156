//! The log of a manager as bytes, both ways: what it was founded with, what it proposed, the letters that it took, and
//! which actors it bound to which processes. Made again from these, a manager is the one that it was, but for what
//! its clock told it.
//!
//! A *record* is what a manager logs at once: a list of entries. As bytes it is the length of its body, the body, and a
//! check of the body and of the check before, so a record can stand only behind the one that it was written behind.
//! `log_text` in `specs/Records.antt` is a whole log. `print_record` gives the bytes of one more record, and `read_log`
//! reads a log, however a machine that stopped left it: it gives the records that stand, and where they end. What is
//! behind is *torn*, a front of what was to be written, and is cut off by the caller; or it is *damage*, and the log is
//! of no use. `specs/Logs.antt` says which.
//!
//! The laws: a log that was cut at any place is read as a front of its records, with each that stands whole
//! (`cut_logs_are_fronts`), and a record of which a byte is another one, and behind which a whole one stands, is told as
//! damage at its first byte (`changes_are_told`).
//!
//! What is proved. The check is the first 8 bytes of the SHA-256 of the check before and the body. `print_record` gives
//! exactly the record, or TooLong exactly where its entries take more than 1,048,576 bytes (`IsPrinted`). `read_log`
//! gives the records that stand and where they end, where what is behind is torn (`is_torn`); else the place of the
//! damage (`IsLogRead`). Of a log that was cut, damage is told only where what was cut holds a right record by itself,
//! with the check before it in front of it (`no_damage`). A byte that is another one, in front of a whole record, is
//! told at the first byte of its record, where what stands there is no right record by chance (`changes_are_told`).
//! Neither law assumes anything of SHA-256.
//!
//! What no clause says: that neither ever happens by chance. No writer can be shown to make no such bytes, since a
//! letter may have any: that rests on SHA-256.
#![tactic(auto)]

mod checks;
mod entry;
mod fault;
mod fields;
mod printing;
mod records;
mod scan;
mod values;

ghost use Rattle.hk_log.specs.Laws.{CutLogsAreFronts, CutsAreNoDamage, ChangesAreTold};

pub use checks::{Check, HEADER, MAX_BODY_LEN};
pub use entry::{Entry, Founding, Record, Records};
pub use fault::{LogFault, RecordFault};
pub use fields::is_of_paxos;
pub use hk_fields::{FoundingHosts, HostTickets};
pub use printing::{PrintedRecord, print_record};
pub use scan::{Log, read_log};

/// Every list of records, cut at every place, is read as a front of them, with each that stands whole. A cut is told as
/// damage only where what was cut holds a right record by chance.
pub fn cut_logs_are_fronts()
    ensures fronts { CutLogsAreFronts }
    ensures no_damage { CutsAreNoDamage }
{}

/// A byte that is another one, in a record behind which a whole one stands, is told at the first byte of its record.
pub fn changes_are_told()
    ensures { ChangesAreTold }
{}
