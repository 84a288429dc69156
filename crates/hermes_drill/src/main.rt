//! The command `drill` as a program of its own. It stands on the core of a group and on scripts alone, so it is proved long before the whole
//! program is. It reads a script from its standard input, writes the transcript, and ends with the status of `hk_drill::drill`; it looks at no words.
#![tactic(auto)]

use hk_drill::drill;
use hk_outside::{ReaderSource, WriterSink};
use std::io;
use std::process::ExitCode;

fn main(rt: HostRuntime) -> io::Result<ExitCode> {
    let alloc = rt.alloc();
    let mut source = ReaderSource::new(rt.reader());
    let mut sink = WriterSink::new(io::writer(&rt));
    let status = drill(alloc, &mut source, &mut sink);
    Ok(ExitCode::from(status.number()))
}
