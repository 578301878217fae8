//! The words of the command line.

use super::same;
use macho_words::{Request, WordFault, parse_words, read_number};
use std::process::Abort;

/// Words, and their numbers. Among those that are not numbers, after an empty one, come 2^64 and more, 21 decimal
/// digits, and 17 hexadecimal ones.
const NUMBERS: &[(&str, Option<u64>)] = &[
    ("0", Some(0)),
    ("007", Some(7)),
    ("00000000000000000007", Some(7)),
    ("10", Some(10)),
    ("18446744073709551615", Some(u64::MAX)),
    ("0x0", Some(0)),
    ("0x10", Some(16)),
    ("0x1f", Some(31)),
    ("0x1F", Some(31)),
    ("0xaBcDeF", Some(11_259_375)),
    ("0x0000000000000007", Some(7)),
    ("0xffffffffffffffff", Some(u64::MAX)),
    ("0xFFFFFFFFFFFFFFFF", Some(u64::MAX)),
    ("", None),
    ("18446744073709551616", None),
    ("18446744073709551620", None),
    ("99999999999999999999", None),
    ("184467440737095516150", None),
    ("000000000000000000007", None),
    ("0x00000000000000007", None),
    ("0x10000000000000000", None),
    ("0x", None),
    ("0X1", None),
    ("x1", None),
    ("00x1", None),
    ("0x0x1", None),
    ("0xg", None),
    ("1f", None),
    ("a", None),
    ("/", None),
    (":", None),
    ("0x@", None),
    ("0x`", None),
    ("+5", None),
    ("-5", None),
    ("+", None),
    ("-", None),
    ("0x+5", None),
    ("0x-5", None),
    ("+0x5", None),
    (" 5", None),
    ("5 ", None),
    ("0x 5", None),
    ("1_000", None),
    ("1.0", None),
    ("1e3", None),
    ("0b1", None),
    ("0o7", None),
    ("5\n", None),
    ("5\0", None),
    ("\u{665}", None),
];

#[test]
fn numbers_of_words(rt: HostRuntime) {
    for &(word, number) in NUMBERS {
        same(&rt, &(word, read_number(word)), &(word, number));
    }
}

/// Words, with the name of the file, and the slice and the address of a place that is asked for.
const REQUESTS: &[(&[&str], &str, Option<(u64, u64)>)] = &[
    (&[], "-", None),
    (&["check", "a"], "a", None),
    (&["check", "-"], "-", None),
    (&["check", ""], "", None),
    (&["check", "check"], "check", None),
    (&["check", "where"], "where", None),
    (&["check", "help"], "help", None),
    (&["check", "a b/\u{e9}"], "a b/\u{e9}", None),
    (&["check", "--", "-a"], "-a", None),
    (&["check", "--", "--help"], "--help", None),
    (&["where", "a", "0", "0x1F"], "a", Some((0, 31))),
    (&["where", "-", "1", "2"], "-", Some((1, 2))),
    (
        &["where", "", "007", "0x00000000ffffffff"],
        "",
        Some((7, 0xffff_ffff)),
    ),
    (
        &["where", "7", "18446744073709551615", "0xffffffffffffffff"],
        "7",
        Some((u64::MAX, u64::MAX)),
    ),
    (&["where", "--", "-a", "3", "4"], "-a", Some((3, 4))),
    (&["where", "a", "--", "3", "4"], "a", Some((3, 4))),
];

#[test]
fn words_that_ask(rt: HostRuntime) {
    for &(words, name, place) in REQUESTS {
        check_words(&rt, words, Ok((name, place)));
    }
}

/// Compares what these words ask for: the name of a file, and maybe a slice and an address.
fn check_words(
    rt: &(impl Abort + AllocGlobal),
    words: &[&str],
    wanted: Result<(&str, Option<(u64, u64)>), WordFault>,
) {
    let request = parse_words(rt.alloc(), words);
    let given = match &request {
        Ok(Request::Check { file }) => Ok((file.as_str(), None)),
        Ok(
            Request::Where {
                file,
                slice,
                address,
            },
        ) => Ok((file.as_str(), Some((*slice, *address)))),
        Err(fault) => Err(*fault),
    };
    same(rt, &(words, given), &(words, wanted));
}

/// Words that are not the program's.
const REFUSED: &[&[&str]] = &[
    &["check"],
    &["where"],
    &["look", "a"],
    &["a"],
    &[""],
    &["-"],
    &["--"],
    &["--", "check", "a"],
    &["help"],
    &["help", "check"],
    &["--help"],
    &["-h"],
    &["--version"],
    &["-V"],
    &["Check", "a"],
    &["chec", "a"],
    &["check", "a", "b"],
    &["check", "-a"],
    &["check", "--a"],
    &["check", "--help"],
    &["check", "-h"],
    &["where", "a"],
    &["where", "a", "0"],
    &["where", "a", "0", "0", "0"],
    &["where", "a", "-1", "0"],
    &["where", "a", "0", "-1"],
    &["where", "--help"],
];

#[test]
fn words_that_are_refused(rt: HostRuntime) {
    for &words in REFUSED {
        check_words(&rt, words, Err(WordFault::Usage));
    }
}

/// Words where one should be a number, and is not.
const BAD_NUMBERS: &[&[&str]] = &[
    &["where", "a", "0", "0x"],
    &["where", "a", "18446744073709551616", "0"],
    &["where", "a", "0", "18446744073709551616"],
    &["where", "a", "0X1", "0"],
    &["where", "a", "0", "0X1"],
    &["where", "a", "", "0"],
    &["where", "a", "0", ""],
    &["where", "a", "+5", "0"],
    &["where", "a", "0", " 5"],
    &["where", "a", "-", "0"],
    &["where", "a", "x", "y"],
];

#[test]
fn words_with_bad_numbers(rt: HostRuntime) {
    for &words in BAD_NUMBERS {
        check_words(&rt, words, Err(WordFault::BadNumber));
    }
}
