//! What is written on standard error of a port, for the person who started the program. A line that can't be written is lost.

use std::io;
use std::io::Eprint;

/// The port is open.
pub(crate) fn tell_open<R: Eprint>(rt: &R, port: u16) {
    let _ = eprintln!(rt; "hermes: serves on port {port} of 127.0.0.1");
}

/// The port can't be opened, in the system's words.
pub(crate) fn tell_port_fault<R: Eprint>(rt: &R, port: u16, error: &io::Error) {
    let _ = eprintln!(rt; "hermes: port {port}: {error}");
}

/// A connection can't be taken, in the system's words. It is tried again.
pub(crate) fn tell_take_fault<R: Eprint>(rt: &R, error: &io::Error) {
    let _ = eprintln!(rt; "hermes: connections have to wait: {error}");
}
