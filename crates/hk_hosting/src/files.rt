//! The files of a process: the secret of its group, and the log of its manager.

use crate::end::HostEnd;
use hk_base::{Memory, Sequence};
use hk_disk::{DiskFile, OpenFault};
use hk_host_words::{SecretFault, read_secret};
use hk_outside::Status;
use std::alloc::Global;
use std::fs::{File, Files, create_dir_all};
use std::io::{Eprint, Read};

// The bytes of a file, if it can be read.
fn read_all<R: Files<File = File>>(rt: &R, alloc: Global, path: &str) -> Option<Vec<u8>> {
    let mut bytes = Vec::new(alloc);
    let mut file = File::open(rt, path).ok()?;
    file.read_to_end(&mut bytes).ok()?;
    Some(bytes)
}

/// The secret of a group. Where its file has none, that is told.
pub(crate) fn secret_of<R: Files<File = File> + Eprint>(
    rt: &R,
    alloc: Global,
    path: &str,
) -> Result<Sequence<u8>, HostEnd> {
    let Some(bytes) = read_all(rt, alloc, path) else {
        let _ = eprintln!(rt; "hermes: {path} can't be read");
        return Err(HostEnd::Refused);
    };
    match read_secret(alloc, &bytes) {
        Ok(secret) => Ok(secret),
        Err(SecretFault::Memory) => Err(HostEnd::Plain(Status::Memory)),
        Err(_) => {
            let _ = eprintln!(rt; "hermes: {path} holds no secret");
            Err(HostEnd::Refused)
        }
    }
}

/// The path of the log in a folder.
pub(crate) fn log_path(alloc: Global, folder: &str) -> Result<String, Memory> {
    let path = format!(in alloc; "{folder}/log")?;
    Ok(path)
}

/// Opens the log in a folder, which is made where it is missing.
pub(crate) fn open_log<R: Files<File = File> + Eprint>(
    rt: &R,
    folder: &str,
    path: &str,
) -> Result<DiskFile, HostEnd> {
    let _ = create_dir_all(rt, folder);
    match DiskFile::open(rt, path) {
        Ok(file) => Ok(file),
        Err(OpenFault::Held) => {
            let _ = eprintln!(rt; "hermes: {path} is held by another process");
            Err(HostEnd::Held)
        }
        Err(OpenFault::Failed) => {
            let _ = eprintln!(rt; "hermes: {path} can't be written");
            Err(HostEnd::Held)
        }
    }
}
