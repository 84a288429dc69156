//! The file of a log on a disk: it is locked, and a log that was appended to is taken up again, also where its end is torn.

use hk_base::Change;
use hk_disk::{DiskFile, LogWriter, OpenFault, RecoverFault, recover};
use hk_log::Entry;
use std::alloc::Global;
use std::fs::{self, File, OpenOptions};
use std::io::Write;
use std::rt::Files;

// Opens the file of a log and takes it up: its writer, and where its records begin.
fn taken_up<R: Files<File = File>>(
    rt: &R,
    alloc: Global,
    path: &str,
) -> Option<(LogWriter<DiskFile>, Vec<usize>)> {
    let file = DiskFile::open(rt, path).ok()?;
    let recovered = recover(alloc, file).ok()?;
    Some((recovered.writer, recovered.starts))
}

fn append(alloc: Global, writer: &mut LogWriter<DiskFile>, base: u64) -> bool {
    let entries = [Entry::Propose {
        shard: 0,
        base,
        change: Change::Add,
    }];
    writer.append(alloc, &entries).is_ok()
}

// Puts bytes behind those of a file.
fn put_behind<R: Files<File = File>>(rt: &R, path: &str, bytes: &[u8]) -> bool {
    match OpenOptions::new().append(true).open(rt, path) {
        Ok(mut file) => file.write_all(bytes).is_ok(),
        Err(_) => false,
    }
}

#[test]
fn a_log_is_kept_on_a_disk(rt: HostRuntime) {
    let alloc = rt.alloc();
    let _ = fs::remove_dir_all(&rt, "hk_rows_log_kept");
    assert!(rt; DiskFile::open(&rt, "hk_rows_log_kept/log").is_err());
    assert!(rt; fs::create_dir(&rt, "hk_rows_log_kept").is_ok());
    let (mut writer, starts) = taken_up(&rt, alloc, "hk_rows_log_kept/log").expect(&rt, "a log");
    assert!(rt; starts.is_empty());
    assert!(rt; append(alloc, &mut writer, 1));
    assert!(rt; append(alloc, &mut writer, 2));
    // it is held for as long as it is open
    assert_eq!(rt;
        DiskFile::open(&rt, "hk_rows_log_kept/log").err(),
        Some(OpenFault::Held)
    );
    drop(writer);
    let (writer, starts) = taken_up(&rt, alloc, "hk_rows_log_kept/log").expect(&rt, "a log");
    assert_eq!(rt; starts.as_slice(), [8, 33].as_slice());
    drop(writer);
    assert!(rt; fs::remove_dir_all(&rt, "hk_rows_log_kept").is_ok());
}

#[test]
fn a_torn_end_is_cut_off(rt: HostRuntime) {
    let alloc = rt.alloc();
    let _ = fs::remove_dir_all(&rt, "hk_rows_log_torn");
    assert!(rt; fs::create_dir(&rt, "hk_rows_log_torn").is_ok());
    let (mut writer, _) = taken_up(&rt, alloc, "hk_rows_log_torn/log").expect(&rt, "a log");
    assert!(rt; append(alloc, &mut writer, 1));
    drop(writer);
    assert!(rt; put_behind(&rt, "hk_rows_log_torn/log", &[0, 0, 0]));
    let (mut writer, starts) = taken_up(&rt, alloc, "hk_rows_log_torn/log").expect(&rt, "a log");
    assert_eq!(rt; starts.as_slice(), [8].as_slice());
    assert!(rt; append(alloc, &mut writer, 2));
    drop(writer);
    let (writer, starts) = taken_up(&rt, alloc, "hk_rows_log_torn/log").expect(&rt, "a log");
    assert_eq!(rt; starts.as_slice(), [8, 33].as_slice());
    drop(writer);
    assert!(rt; put_behind(&rt, "hk_rows_log_torn/log", &[9, 9, 9, 9, 9]));
    let file = DiskFile::open(&rt, "hk_rows_log_torn/log").expect(&rt, "a file");
    match recover(alloc, file) {
        Err(RecoverFault::Damaged { at }) => assert_eq!(rt; at, 58),
        _ => panic!(rt; "no damage was told"),
    }
    assert!(rt; fs::remove_dir_all(&rt, "hk_rows_log_torn").is_ok());
}
