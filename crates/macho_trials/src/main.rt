#![tactic(auto)]
//! The program that scripts of `tests/` run. Its first word says what is done with those after it:
//!
//! - `judge` judges files twice, and `judge-by-profiles` judges each by a profile: `judge`;
//! - `call NAME LIMIT` makes one call that may answer want of memory: `refusals`.

mod judge;
mod refusals;

use std::alloc::Global;
use std::env::{self, Args};
use std::process::ExitCode;

/// The status where the words are not as above, or cannot be had.
const NOTHING_DONE: u8 = 2;

fn main(rt: HostRuntime) -> ExitCode {
    ExitCode::from(match env::args(&rt) {
        Ok(words) => status_of(&rt, words),
        Err(_) => NOTHING_DONE,
    })
}

/// Does what the words say, after the program's name. Each part says its statuses.
fn status_of(rt: &HostRuntime, mut words: Args<Global>) -> u8 {
    let word = words.nth(1);
    match word.as_deref() {
        Some("judge") => status_of_judge(judge::judge_twice(rt)),
        Some("judge-by-profiles") => status_of_judge(judge::judge_by_profiles(rt)),
        Some("call") => refusals::call(rt, words),
        _ => NOTHING_DONE,
    }
}

/// 0 where all files are judged.
fn status_of_judge(judged: Option<()>) -> u8 {
    judged.map_or(NOTHING_DONE, |()| 0)
}
