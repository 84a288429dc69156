//! The file of a log: what of it is sure to outlast a stop of the machine, and how a log is taken up and appended to.
//!
//! `LogFile` is the outside: a file that is open, and locked for this process. `LogWriter` is all that touches it: it
//! reads the log, cuts off what is torn, makes sure of the rest, and from then on appends a record at a time. A call that
//! answered has made its record sure, so what is done behind it is of a record that is never lost. The first call of the
//! file that fails ends the writer for good, since what the file has is not known from then on.
//!
//! `DiskFile` is the file of a disk. It notes what each call told, and contracts speak of that; no clause can say that
//! each method makes the call that it notes, which is to be read, nor that the disk keeps what a sync answered, nor that
//! nobody writes to the file who doesn't ask for its lock.
//!
//! What is proved. What `recover` gives is a writer and records, and the file has just these records, made sure
//! (`IsSureLog`). Once `LogWriter::append` has answered, its record is sure behind those that were (`sure`), for every
//! list of records. A writer has ended just where its last append told so (`ends`), tells so for ever (`ended`), and
//! first only where the file's count of faults rose (`cause`).
//!
//! What no clause says: that the records are those that stood in the file before; when `recover` refuses, and that it
//! writes nothing where the log is damaged; that an append which finds no memory, or whose record is too long, leaves
//! the file as it was. In the code it is so.
#![tactic(auto)]

mod call;
mod disk;
mod fake;
mod file;
mod known;
mod writer;

pub use disk::{DiskFile, OpenFault};
pub use fake::FakeFile;
pub use file::LogFile;
pub use writer::{AppendFault, LogWriter, RecoverFault, Recovered, recover};
