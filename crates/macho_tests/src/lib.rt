#![tactic(auto)]
//! Tests of the crates below: what no clause says, and that the clauses say what was meant. The verdicts are vectors, in
//! `tests/fixtures/vectors`.

#[cfg(test)]
mod doubles;
#[cfg(test)]
mod failing;
#[cfg(test)]
mod faults;
#[cfg(test)]
mod fields;
#[cfg(test)]
mod layers;
#[cfg(test)]
mod mapping;
#[cfg(test)]
mod notation;
#[cfg(test)]
mod spans;
#[cfg(test)]
mod streams;
#[cfg(test)]
mod views;
#[cfg(test)]
mod words;

#[cfg(test)]
use std::fmt::Debug;
#[cfg(test)]
use std::process::Abort;

/// Compares what is given with what is wanted. A call costs less proof than `assert_eq!`.
#[cfg(test)]
fn same<T: PartialEq + Debug>(rt: &impl Abort, given: &T, wanted: &T) {
    assert_eq!(rt; *given, *wanted);
}
