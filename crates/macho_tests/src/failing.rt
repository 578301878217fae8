//! The calls that read an input and write a text, over streams of std: each read fails in turn, and each
//! write.

use super::same;
use crate::doubles::{CountingReader, CountingWriter, Fault};
use crate::notation::{BARE_HEADER, BARE_LAYOUT, executable};
use macho_program::Found;
use macho_report::{FromRead, FromWrite, Outcome, RunFault, WhereOutcome, run, run_where};
use std::alloc::Global;
use std::process::Abort;

/// Which call is made: `run`, or `run_where` on the address of the header of the executable.
#[derive(Clone, Copy)]
enum Call {
    Run,
    RunWhere,
}

/// How a call ends.
type Ended = Result<Found, RunFault>;

/// Makes the call.
fn ended(
    alloc: Global,
    call: Call,
    limit: u64,
    reader: &mut CountingReader,
    writer: &mut CountingWriter,
) -> Ended {
    let (mut reader, mut writer) = (FromRead::new(reader), FromWrite::new(writer));
    match call {
        Call::Run => run(alloc, limit, &mut reader, &mut writer).map(Found::Check),
        Call::RunWhere => {
            let address = 0x1_0000_0000;
            run_where(alloc, limit, 0, address, &mut reader, &mut writer).map(Found::Where)
        }
    }
}

/// The text on the executable.
const EXECUTABLE_LAYOUT: &str = r#"accepted, slices 1
slice 0 x86_64 at 0x0 size 0x202c execute
  uuid 00112233-4455-6677-8899-AABBCCDDEEFF
  build platform 1 min 11.0.0 sdk 13.1.0
  segment "__PAGEZERO" addr 0x0 size 0x100000000 file 0x0 size 0x0 ---
  segment "__TEXT" addr 0x100000000 size 0x1000 file 0x0 size 0x1000 r-x
    section "__text" addr 0x100000f00 size 0x100 file 0xf00
  segment "__DATA" addr 0x100001000 size 0x2000 file 0x1000 size 0x1000 rw-
    section "__data" addr 0x100001000 size 0x10 file 0x1000
    section "__bss" addr 0x100001010 size 0x20 zero
  segment "__LINKEDIT" addr 0x100003000 size 0x1000 file 0x2000 size 0x2c r--
  load "/usr/lib/libSystem.B.dylib" current 1319.0.0 compatible 1.0.0
  symbols 2
  entry 0x100000f00
"#;

/// How the call ends on the executable where nothing fails, and the text.
fn whole(call: Call) -> (Ended, &'static [u8]) {
    match call {
        Call::Run => (CHECKED, EXECUTABLE_LAYOUT.as_bytes()),
        Call::RunWhere => (TOLD, b"file 0x0\n"),
    }
}

const CHECKED: Ended = Ok(Found::Check(Outcome::Accepted));

const TOLD: Ended = Ok(Found::Where(WhereOutcome::Told));

/// The limit of the program.
const LIMIT: u64 = 1 << 32;

/// Each call, how many bytes a read gives at most, and how many reads the executable of 0x202c bytes
/// takes, the one at its end among them.
const READS: &[(Call, usize, u64)] = &[
    (Call::Run, usize::MAX, 2),
    (Call::Run, 4096, 4),
    (Call::Run, 100, 84),
    (Call::Run, 9, 917),
    (Call::RunWhere, usize::MAX, 2),
    (Call::RunWhere, 4096, 4),
    (Call::RunWhere, 100, 84),
    (Call::RunWhere, 9, 917),
];

#[test]
fn each_read_fails_in_turn(rt: HostRuntime) {
    let file = executable(&rt);
    for &(call, most, count) in READS {
        check_reads(&rt, &file, call, most, count);
    }
}

/// Makes the call once where no read fails, and once for each read, which then fails.
fn check_reads(rt: &(impl Abort + AllocGlobal), file: &[u8], call: Call, most: usize, count: u64) {
    for fails_at in 0..=count {
        let mut reader = CountingReader::new(file, fails_at);
        reader.most = most;
        let mut writer = CountingWriter::new(Vec::new(rt.alloc()), 0, Fault::Error);
        let ended = ended(rt.alloc(), call, LIMIT, &mut reader, &mut writer);
        let (wanted, text) = match fails_at {
            0 => whole(call),
            _ => (Err(RunFault::Read), b"".as_slice()),
        };
        let reads = if fails_at == 0 { count } else { fails_at };
        check_end(rt, ended, &writer, wanted, text);
        same(rt, &(fails_at, reader.reads), &(fails_at, reads));
    }
}

/// Compares how a call ends, and the text. Nothing is flushed.
fn check_end(rt: &impl Abort, ended: Ended, writer: &CountingWriter, wanted: Ended, text: &[u8]) {
    let given = (ended, writer.bytes.as_slice(), writer.flushes);
    same(rt, &given, &(wanted, text, 0));
}

/// Each call, and what a write does that goes wrong.
const WRITES: &[(Call, Fault)] = &[
    (Call::Run, Fault::Error),
    (Call::Run, Fault::NoBytes),
    (Call::RunWhere, Fault::Error),
    (Call::RunWhere, Fault::NoBytes),
];

#[test]
fn each_write_fails_in_turn(rt: HostRuntime) {
    let file = executable(&rt);
    for &(call, fault) in WRITES {
        check_writes(&rt, &file, call, fault);
    }
}

/// Makes the call with writes of one byte: once where no write goes wrong, and once for each that does.
fn check_writes(rt: &(impl Abort + AllocGlobal), file: &[u8], call: Call, fault: Fault) {
    let (wanted, text) = whole(call);
    let count = text.len() as u64;
    check_write(rt, file, call, (0, fault), (wanted, text, count));
    for written in 0..text.len() {
        let fails_at = (written as u64).saturating_add(1);
        let failed = (Err(RunFault::Write), &text[..written], fails_at);
        check_write(rt, file, call, (fails_at, fault), failed);
    }
}

/// Makes the call with this write that goes wrong, and compares its end, the text and the writes.
fn check_write(
    rt: &(impl Abort + AllocGlobal),
    file: &[u8],
    call: Call,
    bad_write: (u64, Fault),
    wanted: (Ended, &[u8], u64),
) {
    let mut reader = CountingReader::new(file, 0);
    let (fails_at, fault) = bad_write;
    let mut writer = CountingWriter::new(Vec::new(rt.alloc()), fails_at, fault);
    writer.most = 1;
    let ended = ended(rt.alloc(), call, LIMIT, &mut reader, &mut writer);
    let (wanted, text, writes) = wanted;
    check_end(rt, ended, &writer, wanted, text);
    same(rt, &writer.writes, &writes);
}

/// A call with a limit on a file, by reads and writes of one byte, where this read and this write
/// fail; how it ends, how many reads there are, and the text.
type Ending = (
    Call,
    u64,
    &'static [u8],
    (u64, u64),
    Ended,
    u64,
    &'static str,
);

const CHECK_REFUSED: Ended = Ok(Found::Check(Outcome::Refused));

const WHERE_REFUSED: Ended = Ok(Found::Where(WhereOutcome::Refused));

const TOO_LONG: Ended = Err(RunFault::TooLong);

const READ: Ended = Err(RunFault::Read);

const WRITE: Ended = Err(RunFault::Write);

const MOST: u64 = u64::MAX;

const NO_MAGIC: &str = "refused: magic at 0x0\n";

const HEADER: &[u8] = BARE_HEADER;

const ENDINGS: &[Ending] = &[
    (Call::Run, 32, HEADER, (0, 0), CHECKED, 33, BARE_LAYOUT),
    (Call::Run, 31, HEADER, (0, 0), TOO_LONG, 32, ""),
    (Call::Run, 32, HEADER, (2, 0), READ, 2, ""),
    (Call::Run, 32, HEADER, (0, 11), WRITE, 33, "accepted, "),
    (Call::Run, 0, b"", (0, 0), CHECK_REFUSED, 1, NO_MAGIC),
    (Call::Run, 0, b"a", (0, 0), TOO_LONG, 1, ""),
    (Call::Run, MOST, HEADER, (0, 0), CHECKED, 33, BARE_LAYOUT),
    (Call::RunWhere, 32, HEADER, (0, 0), TOLD, 33, "unmapped\n"),
    (Call::RunWhere, 31, HEADER, (0, 0), TOO_LONG, 32, ""),
    (Call::RunWhere, 32, HEADER, (2, 0), READ, 2, ""),
    (Call::RunWhere, 32, HEADER, (0, 9), WRITE, 33, "unmapped"),
    (Call::RunWhere, 0, b"", (0, 0), WHERE_REFUSED, 1, NO_MAGIC),
    (Call::RunWhere, 0, b"a", (0, 0), TOO_LONG, 1, ""),
    (Call::RunWhere, MOST, HEADER, (0, 0), TOLD, 33, "unmapped\n"),
];

#[test]
fn failing_streams(rt: HostRuntime) {
    for &(call, limit, file, (bad_read, bad_write), wanted, reads, text) in ENDINGS {
        let mut reader = CountingReader::new(file, bad_read);
        reader.most = 1;
        let mut writer = CountingWriter::new(Vec::new(rt.alloc()), bad_write, Fault::Error);
        writer.most = 1;
        let ended = ended(rt.alloc(), call, limit, &mut reader, &mut writer);
        check_end(&rt, ended, &writer, wanted, text.as_bytes());
        same(&rt, &reader.reads, &reads);
    }
}
