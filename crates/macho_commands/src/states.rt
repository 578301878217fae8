//! The states of a thread. (`mach-o/loader.h`: `thread_command`)

ghost use Rattle.std.specs.Prelude.{◌≡◌, ◌+◌, ◌^◌, ◌≤◌, ◌<◌, ◌↔◌, ℕ, length, IsTrue, IsSome, IfSome, Some};
ghost use Rattle.macho_fields.specs.Bytes.{bytes_of};
ghost use Rattle.macho_commands.specs.States.{state_end, has_registers, header_at, IsRegisterState, IsEntryOf};
ghost use Rattle.macho_commands.specs.States.{HasThreadEntry, HasStateHeader};

use crate::registers::{StateHeader, registers_of};
use macho_fields::header::loader::LOAD_COMMAND_SIZE;
use macho_fields::header::thread_status::{STATE_COUNT, STATE_HEADER_SIZE, STATE_WORD_SIZE};
use macho_fields::{Bytes, Order};

// The entry that the thread names, or `None` where it does not have one state with registers, or these are not whole.
pub(crate) fn thread_entry_of(cputype: u32, command: Bytes) -> Option<u64>
    requires { LOAD_COMMAND_SIZE ≤ length (bytes_of command) }
    ensures { (entry : ℕ) → (result ≡ Some entry)
        ↔ HasThreadEntry cputype (bytes_of command.entry) entry }
{
    let state = register_state(cputype, command)?;
    entry_of(cputype, command, state)
}

// The one state of the thread that has registers, or `None` where there is not one, or a state ends past the command.
fn register_state(cputype: u32, command: Bytes) -> Option<u64>
    requires { LOAD_COMMAND_SIZE ≤ length (bytes_of command) }
    ensures state { (state : ℕ) → (result ≡ Some state)
        ↔ IsRegisterState cputype (bytes_of command.entry) state }
    ensures inside { IfSome result (λ state.
        state_end (bytes_of command.entry) state ≤ length (bytes_of command.entry)) }
{
    let mut found = None;
    let mut state = LOAD_COMMAND_SIZE;
    while state < command.len() {
        let next = end_of_state(command, state)?;
        if has_registers(cputype, command, state) {
            if found.is_some() {
                return None;
            }
            found = Some(state);
        }
        state = next;
    }
    found
}

// Where the state ends, or `None` where that is past the command.
fn end_of_state(command: Bytes, state: u64) -> Option<u64>
    requires { state < length (bytes_of command) }
    ensures inside { IsSome result ↔ (state_end (bytes_of command.entry) state
        ≤ length (bytes_of command.entry)) }
    ensures end { IfSome result (λ end. end ≡ state_end (bytes_of command.entry) state) }
{
    if command.len() - state < STATE_HEADER_SIZE {
        return None;
    }
    let count = command.read_u32(Order::Little, state + STATE_COUNT);
    let size = STATE_HEADER_SIZE + STATE_WORD_SIZE * u64::from(count);
    if command.len() - state < size {
        return None;
    }
    Some(state + size)
}

// Whether the state has the registers of a processor with this `cputype`.
fn has_registers(cputype: u32, command: Bytes, state: u64) -> bool
    requires { state + 4 ≤ length (bytes_of command) }
    ensures { result ≡ has_registers cputype (bytes_of command.entry) state }
{
    registers_of(cputype, command.read_u32(Order::Little, state)).is_some()
}

// The entry that the registers of the state name, or `None` where they are not whole.
fn entry_of(cputype: u32, command: Bytes, state: u64) -> Option<u64>
    requires { state_end (bytes_of command) state ≤ length (bytes_of command) }
    ensures { (entry : ℕ) → (result ≡ Some entry)
        ↔ IsEntryOf cputype (bytes_of command.entry) state entry }
{
    let header = header_at(command, state);
    let registers = registers_of(cputype, header.flavor)?;
    let words = state + STATE_HEADER_SIZE;
    if header.count != registers.count || !has_header(command, words, registers.header) {
        return None;
    }
    Some(command.read_u64(Order::Little, words + registers.entry))
}

// Whether the words of a state begin with the header, if registers have one.
fn has_header(command: Bytes, words: u64, header: Option<StateHeader>) -> bool
    requires { words + 8 ≤ length (bytes_of command) }
    ensures { IsTrue result ↔ HasStateHeader (bytes_of command.entry) words header }
{
    match header {
        Some(header) => header_at(command, words) == header,
        None => true,
    }
}

// The flavor and the count at this offset.
fn header_at(command: Bytes, offset: u64) -> StateHeader
    requires { offset + 8 ≤ length (bytes_of command) }
    ensures { result ≡ header_at (bytes_of command.entry) offset }
{
    StateHeader {
        flavor: command.read_u32(Order::Little, offset),
        count: command.read_u32(Order::Little, offset + STATE_COUNT),
    }
}
