//! What is written on standard error of jobs, for the person who started the program. A line that can't be written is lost.

use std::io::Eprint;

/// A job got no thread.
pub(crate) fn tell_refusal<R: Eprint>(rt: &R) {
    let _ = eprintln!(rt; "hermes: there is no thread or no memory for one more connection");
}
