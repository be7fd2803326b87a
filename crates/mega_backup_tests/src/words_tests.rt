//! The words `backup` and `restore`, over sources, sinks and devices in memory.

use crate::samples;
use mega_backup_words::{Outcome, run_backup, run_restore};
use mega_base::{Bytes, GroupId, NoMemory, Position};
use mega_disk::{Disk, DiskError, MemDisk};
use mega_io::{MemSink, MemSource};
use std::alloc::Global;
use std::process::Abort;

/// The group of user 101.
fn group(alloc: Global) -> Result<GroupId, NoMemory> {
    let key = Bytes::from_slice(alloc, &[1, 128, 0, 0, 0, 0, 0, 0, 101])?;
    GroupId::new(alloc, key)
}

/// A source of texts, one behind the other.
fn source(rt: &impl Abort, alloc: Global, texts: &[&str], failing: Vec<u64>) -> MemSource {
    let mut bytes = Vec::new(alloc);
    for text in texts {
        bytes
            .extend_from_slice(text.as_bytes())
            .expect(rt, "refused");
    }
    MemSource::new(bytes, failing)
}

/// A device that holds these bytes.
fn holding(alloc: Global, bytes: &[u8]) -> Result<MemDisk, DiskError> {
    let mut disk = MemDisk::new(alloc);
    disk.write(0, bytes)?;
    Ok(disk)
}

/// A device with a log in hex.
fn device(rt: &impl Abort, alloc: Global, log: &str) -> MemDisk {
    let bytes = hex::decode(alloc, log.as_bytes()).expect(rt, "refused");
    holding(alloc, bytes.as_slice()).expect(rt, "refused")
}

/// Asserts the status and the output of a backup, and gives the device back.
fn check_backup(
    rt: &impl Abort,
    alloc: Global,
    log: MemDisk,
    number: u8,
    through: u64,
    wanted: (u8, &str),
) -> MemDisk {
    let group = group(alloc).expect(rt, "refused");
    let mut input = source(rt, alloc, &[samples::HEADER], Vec::new(alloc));
    let mut out = MemSink::new(alloc, Vec::new(alloc));
    let Outcome { status, log } = run_backup(
        alloc,
        number,
        &group,
        Position(through),
        &mut input,
        &mut out,
        log,
    );
    assert_eq!(rt; status, wanted.0);
    assert_eq!(rt; out.bytes(), wanted.1.as_bytes());
    log
}

#[test]
fn a_log_is_backed_up_again_and_again(rt: HostRuntime) {
    let alloc = rt.alloc();
    let log = device(&rt, alloc, samples::USER_LOG);
    let log = check_backup(&rt, alloc, log, 1, 1, (0, samples::USER_BACKUP));
    let log = check_backup(&rt, alloc, log, 1, 2, (13, "short 1\n"));
    let log = check_backup(&rt, alloc, log, 4, 1, (3, "header 3\n"));
    check_backup(&rt, alloc, log, 3, 0, (0, "backup 018000000000000065 0\n"));
}

#[test]
fn a_device_that_fails_and_a_bad_record_are_told(rt: HostRuntime) {
    let alloc = rt.alloc();
    let log = device(&rt, alloc, samples::BAD_LOG);
    check_backup(&rt, alloc, log, 1, 0, (16, ""));
    let mut failing = device(&rt, alloc, samples::USER_LOG);
    failing.fail_at(2);
    check_backup(&rt, alloc, failing, 1, 1, (7, ""));
}

/// Asserts the status and the output of a restore.
fn check_restore(rt: &impl Abort, alloc: Global, texts: &[&str], at: u64, wanted: (u8, &str)) {
    let mut input = source(rt, alloc, texts, Vec::new(alloc));
    let mut out = MemSink::new(alloc, Vec::new(alloc));
    let status = run_restore(alloc, Position(at), &mut input, &mut out);
    assert_eq!(rt; status, wanted.0);
    assert_eq!(rt; out.bytes(), wanted.1.as_bytes());
}

#[test]
fn a_backup_is_restored_at_each_position(rt: HostRuntime) {
    let alloc = rt.alloc();
    let texts = [samples::HEADER, "---\n", samples::USER_BACKUP];
    check_restore(&rt, alloc, &texts, 1, (0, samples::USER_LINE));
    check_restore(&rt, alloc, &texts, 0, (0, ""));
    check_restore(&rt, alloc, &texts, 2, (13, "short 1\n"));
}

#[test]
fn an_input_that_is_no_backup_is_told(rt: HostRuntime) {
    let alloc = rt.alloc();
    let missing = [samples::HEADER, "---\nbackup 018000000000000065 1\n"];
    check_restore(&rt, alloc, &missing, 1, (12, "malformed 2\n"));
    check_restore(
        &rt,
        alloc,
        &[samples::HEADER, "---"],
        0,
        (12, "malformed 1\n"),
    );
    check_restore(&rt, alloc, &[samples::HEADER], 0, (3, "header 9\n"));
}
