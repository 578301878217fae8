//! Streams: how many reads, writes and flushes there are, and which bytes come out.

ghost use Rattle.std.specs.Prelude.{None};

use super::same;
use crate::doubles::slow::SlowReader;
use crate::doubles::{CountingReader, CountingWriter, Fault};
use crate::notation::{BARE_HEADER, BARE_LAYOUT};
use macho_program::{MachoCheck, Open, exit_code, run_program};
use macho_report::{Failed, FromRead, FromWrite, Input, Output};
use macho_text::Flush;
use macho_text::transfer::{ReadFault, read_all};
use std::alloc::{AllocError, Global};
use std::process::{Abort, ExitCode};

/// Three MiB: 48 pieces of 65,536 bytes.
const THREE_MEBIBYTES: u32 = 3 << 20;

/// Lengths of texts, and how many reads each takes: of its pieces of 65,536 bytes, and of the end. The
/// last piece of the first has a single byte.
const READS: &[(u32, u64)] = &[((1 << 20) + 1, 18), (THREE_MEBIBYTES, 49)];

#[test]
fn reads_a_reader_of_std(rt: HostRuntime) {
    for &(len, reads) in READS {
        let text = text_of(rt.alloc(), len).expect(&rt, "memory");
        let mut counted = CountingReader::new(&text, 0);
        let mut reader = FromRead::new(&mut counted);
        let read = read_all(rt.alloc(), 1 << 32, &mut reader);
        same(&rt, &read.as_deref(), &Ok(text.as_slice()));
        same(&rt, &(reader.failed(), counted.reads), &(false, reads));
    }
}

/// A text of so many bytes.
fn text_of(alloc: Global, count: u32) -> Result<Vec<u8>, AllocError> {
    let mut text = Vec::new(alloc);
    for i in 0..count {
        text.push((i % 251) as u8)?;
    }
    Ok(text)
}

/// A limit, a text that is read a byte at a time, the read that fails, what is read, and how many reads
/// there are.
type Reading = (
    u64,
    &'static [u8],
    u64,
    Result<&'static [u8], &'static ReadFault>,
    u64,
);

const READINGS: &[Reading] = &[
    (0, b"", 0, Ok(b""), 1),
    (3, b"abc", 0, Ok(b"abc"), 4),
    (u64::MAX, b"abc", 0, Ok(b"abc"), 4),
    (2, b"abc", 0, Err(&ReadFault::TooLong), 3),
    (0, b"a", 0, Err(&ReadFault::TooLong), 1),
    (3, b"abc", 1, Err(&ReadFault::Read), 1),
    (3, b"abc", 2, Err(&ReadFault::Read), 2),
    (3, b"abc", 4, Err(&ReadFault::Read), 4),
];

#[test]
fn reads_a_byte_at_a_time(rt: HostRuntime) {
    for &(limit, text, fails_at, wanted, reads) in READINGS {
        let mut reader = SlowReader::new(text, fails_at);
        let read = read_all(rt.alloc(), limit, &mut reader);
        same(&rt, &(read.as_deref(), reader.reads), &(wanted, reads));
    }
}

#[test]
fn writes_three_mebibytes(rt: HostRuntime) {
    let text = text_of(rt.alloc(), THREE_MEBIBYTES).expect(&rt, "memory");
    let mut counted = CountingWriter::new(Vec::new(rt.alloc()), 0, Fault::Error);
    for piece in text.chunks(65_536) {
        let mut writer = FromWrite::new(&mut counted);
        let given = (writer.write(piece), writer.flush());
        same(&rt, &given, &(Ok(piece.len()), Ok(())));
    }
    check_written(&rt, &counted, &text, (48, 48));
}

/// Compares what a writer has, and how many writes and flushes there were.
fn check_written(rt: &impl Abort, writer: &CountingWriter, text: &[u8], calls: (u64, u64)) {
    let given = (writer.bytes.as_slice(), (writer.writes, writer.flushes));
    same(rt, &given, &(text, calls));
}

#[test]
fn each_read_is_one_of_std(rt: HostRuntime) {
    // All lengths that the program reads.
    let bytes = [7u8; 65_536];
    let mut piece = [0u8; 65_536];
    for size in 0..65_537 {
        let mut counted = CountingReader::new(&bytes, 0);
        let read = FromRead::new(&mut counted).read(&mut piece[..size]);
        let given = (read, counted.reads, counted.bytes.len());
        same(&rt, &given, &(Ok(size), 1, 65_536 - size));
    }
}

#[test]
fn no_read_follows_an_error_of_std(rt: HostRuntime) {
    for fails_at in 1..8 {
        check_failed_read(&rt, fails_at);
    }
}

/// Makes seven reads, and this one fails. No later one is passed on.
fn check_failed_read(rt: &impl Abort, fails_at: u64) {
    let mut counted = CountingReader::new(BARE_HEADER, fails_at);
    let mut reader = FromRead::new(&mut counted);
    let mut piece = [0u8; 4];
    for call in 1..8 {
        let wanted = if call < fails_at { Ok(4) } else { Err(Failed) };
        let given = (reader.read(&mut piece), reader.failed());
        same(rt, &given, &(wanted, wanted.is_err()));
    }
    same(rt, &counted.reads, &fails_at);
}

#[test]
fn each_write_is_one_of_std(rt: HostRuntime) {
    let bytes = [7u8; 1000];
    for size in 0..1001 {
        let mut counted = CountingWriter::new(Vec::new(rt.alloc()), 0, Fault::Error);
        let mut writer = FromWrite::new(&mut counted);
        same(&rt, &writer.write(&bytes[..size]), &Ok(size));
        check_written(&rt, &counted, &bytes[..size], (1, 0));
    }
}

#[test]
fn no_call_follows_an_error_of_std(rt: HostRuntime) {
    for fails_at in 1..8 {
        check_failed_call(&rt, fails_at, Fault::Error);
        check_failed_call(&rt, fails_at, Fault::NoBytes);
    }
}

/// Makes seven calls, by turns a write and a flush, and this one goes wrong. No later one is passed
/// on.
fn check_failed_call(rt: &(impl Abort + AllocGlobal), fails_at: u64, fault: Fault) {
    let mut counted = CountingWriter::new(Vec::new(rt.alloc()), fails_at, fault);
    let mut writer = FromWrite::new(&mut counted);
    for call in 1..8u64 {
        let works = match call % 2 {
            1 => writer.write(b"abcd").is_ok(),
            _ => writer.flush().is_ok(),
        };
        let right = call < fails_at;
        same(rt, &(works, writer.failed()), &(right, !right));
    }
    let calls = (counted.writes, counted.flushes);
    same(rt, &calls, &(fails_at.div_ceil(2), fails_at / 2));
}

const READ_LINE: &str = "macho-check: read failed\n";

const WRITE_LINE: &str = "macho-check: write failed\n";

const NO_IMAGE_LINE: &str = "macho-check: no such image\n";

/// No file can be opened.
struct NoFiles;

impl Open for NoFiles {
    type File = &'static [u8];

    ghost bytes = { λ _ _. None };

    fn open(&self, _name: &str) -> Result<&'static [u8], Failed> {
        Err(Failed)
    }
}

/// How the program ends: its status, what it writes to both outputs, and how many reads of standard
/// input, writes and flushes there are.
#[derive(Clone, Copy)]
struct End(u8, &'static str, &'static str, (u64, u64, u64));

/// The words of the program, the read and the call of the writer that fail, and the end.
const ENDS: &[(Option<&[&str]>, u64, u64, End)] = &[
    (UNNAMED, 0, 0, End(0, BARE_LAYOUT, "", (2, 2, 1))),
    (Some(&[]), 0, 0, End(0, BARE_LAYOUT, "", (2, 2, 1))),
    (UNNAMED, 1, 0, End(3, "", READ_LINE, (1, 0, 0))),
    (UNNAMED, 2, 0, End(3, "", READ_LINE, (2, 0, 0))),
    (UNNAMED, 0, 1, End(3, "", WRITE_LINE, (2, 1, 0))),
    (
        UNNAMED,
        0,
        2,
        End(3, "accepted, slices 1\n", WRITE_LINE, (2, 2, 0)),
    ),
    (UNNAMED, 0, 3, End(3, BARE_LAYOUT, WRITE_LINE, (2, 2, 1))),
    (None, 0, 0, End(3, "", READ_LINE, (0, 0, 0))),
    (
        Some(&["macho-check", "check", "-"]),
        0,
        0,
        End(0, BARE_LAYOUT, "", (2, 2, 1)),
    ),
    // Nothing is read where the file is not opened, and nothing is written or flushed where the file has no
    // image.
    (
        Some(&["macho-check", "check", "none"]),
        0,
        0,
        End(3, "", READ_LINE, (0, 0, 0)),
    ),
    (
        Some(&["macho-check", "where", "-", "0", "0"]),
        0,
        0,
        End(0, "unmapped\n", "", (2, 1, 1)),
    ),
    (
        Some(&["macho-check", "where", "-", "1", "0"]),
        0,
        1,
        End(2, "", NO_IMAGE_LINE, (2, 0, 0)),
    ),
];

const UNNAMED: Option<&[&str]> = Some(&["macho-check"]);

#[test]
fn ends_of_the_program(rt: HostRuntime) {
    for &(words, bad_read, bad_write, end) in ENDS {
        check_end(&rt, words, bad_read, bad_write, end);
    }
}

/// Compares the end of the program, on these words, where this read and this call of the writer
/// fail. Standard input has a bare header.
fn check_end(
    rt: &(impl Abort + AllocGlobal),
    words: Option<&[&str]>,
    bad_read: u64,
    bad_write: u64,
    wanted: End,
) {
    let mut reader = CountingReader::new(BARE_HEADER, bad_read);
    let mut writer = CountingWriter::new(Vec::new(rt.alloc()), bad_write, Fault::Error);
    let mut errors = CountingWriter::new(Vec::new(rt.alloc()), 0, Fault::Error);
    let ended = run_program(
        rt.alloc(),
        &MachoCheck,
        words,
        &NoFiles,
        &mut FromRead::new(&mut reader),
        &mut FromWrite::new(&mut writer),
        &mut FromWrite::new(&mut errors),
    );
    let End(status, text, line, (reads, writes, flushes)) = wanted;
    same(rt, &exit_code(&ended), &ExitCode::from(status));
    same(rt, &reader.reads, &reads);
    check_written(rt, &writer, text.as_bytes(), (writes, flushes));
    let lines = u64::from(!line.is_empty());
    check_written(rt, &errors, line.as_bytes(), (lines, 0));
}
