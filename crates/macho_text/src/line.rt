//! Lines of text, which are put together in an array. The array is written when it is full.

ghost use Rattle.std.specs.Prelude.{◌≡◌, ◌+◌, ◌≤◌, ◌<◌, ◌↔◌, [], ◌++◌, false, codes, length, take, IsErr, IsTrue, OnOk};
ghost use Rattle.std.specs.Fmt.{digits};
ghost use Rattle.macho_text.specs.Writer.{PutsText, HoldsText};

use crate::number::put_digits;
use crate::stream::Output;
use crate::transfer::{WriteFault, write_all};
use std::marker::Model;

/// How many bytes are held at most before they are written.
pub const PLACES: usize = 1024;

/// How many bytes there is room for at the start of a line.
pub const LINE_ROOM: usize = 320;

/// How many bytes there is room for after a name or a word.
pub const ROOM: usize = 160;

/// A line, after others that are not written yet: the bytes of them all.
#[derive(Drop)]
pub struct Line {
    places: [u8; PLACES],
    len: usize,
}

impl Model for Line {
    ghost use Rattle.std.specs.Prelude.{ℕ, List, ◌≤◌, take};

    ghost Value = { List ℕ };

    ghost view = { λ line. take line.len line.places };

    ghost invariant = { λ line. line.len ≤ 1024 };
}

impl Line {
    /// A line without bytes, after no others.
    #[inline(always)]
    pub fn new() -> Line
        ensures { result ≡ [] }
    {
        Line {
            places: [0; PLACES],
            len: 0,
        }
    }

    /// Begins a line after those that are held. Without room for it, they are written first.
    #[inline(always)]
    pub fn begin<W: Output>(&mut self, writer: &mut W) -> Result<(), WriteFault>
        ensures room { OnOk result (length self.new + LINE_ROOM ≤ PLACES) }
        ensures text { HoldsText W.Output writer.old writer.new result self.new self.old }
    {
        if self.len <= PLACES - LINE_ROOM {
            return Ok(());
        }
        self.hand_on(writer)
    }

    /// Puts a text. If it is a constant, this takes a few instructions.
    #[inline(always)]
    pub fn text<const N: usize>(&mut self, text: &[u8; N])
        requires room { length self.old + length text.now ≤ PLACES }
        ensures { self.new ≡ self.old ++ text.now }
    {
        put_text(&mut self.places, self.len, text);
        self.len += N;
    }

    /// Puts some bytes.
    #[inline(always)]
    pub fn bytes(&mut self, bytes: &[u8])
        requires room { length self.old + length bytes.now ≤ PLACES }
        ensures { self.new ≡ self.old ++ bytes.now }
    {
        let end = self.len + bytes.len();
        self.places[self.len..end].copy_from_slice(bytes);
        self.len = end;
    }

    // Puts the digits of a number in a base from 10 to 16, which are so many.
    pub(crate) fn number<const BASE: u64>(&mut self, number: u64, count: usize)
        requires low { 10 ≤ BASE }
        requires high { BASE ≤ 16 }
        requires count { count ≡ length (digits BASE false number) }
        requires room { length self.old + count ≤ PLACES }
        ensures { self.new ≡ self.old ++ digits BASE false number }
    {
        let end = self.len + count;
        put_digits::<BASE>(number, &mut self.places[self.len..end]);
        self.len = end;
    }

    /// Puts a word of any length. Without room for it, the bytes that are held are written
    /// first, and a very long word is written too.
    #[inline(always)]
    pub fn word<W: Output>(&mut self, word: &[u8], writer: &mut W) -> Result<(), WriteFault>
        ensures room { OnOk result (length self.new + ROOM ≤ PLACES) }
        ensures text { HoldsText W.Output writer.old writer.new result self.new
            (self.old ++ word.now) }
    {
        if self.has_room(word.len()) {
            self.bytes(word);
            return Ok(());
        }
        self.word_anew(word, writer)
    }

    // Writes the bytes that are held, and holds a word in their place, or writes the word if it is
    // too long.
    #[inline(never)]
    fn word_anew<W: Output>(&mut self, word: &[u8], writer: &mut W) -> Result<(), WriteFault>
        ensures room { OnOk result (length self.new + ROOM ≤ PLACES) }
        ensures text { HoldsText W.Output writer.old writer.new result self.new
            (self.old ++ word.now) }
    {
        self.hand_on(writer)?;
        if self.has_room(word.len()) {
            self.bytes(word);
            return Ok(());
        }
        write_all(word, writer)
    }

    // Whether there is room for `count` bytes, and for `ROOM` bytes after them.
    #[inline(always)]
    pub(crate) fn has_room(&self, count: usize) -> bool
        ensures { IsTrue result ↔ (length self.now + count + ROOM ≤ PLACES) }
    {
        self.len <= PLACES - ROOM && count <= PLACES - ROOM - self.len
    }

    /// Writes the bytes that are held. If this succeeds, none is held afterwards.
    #[inline(never)]
    pub fn hand_on<W: Output>(&mut self, writer: &mut W) -> Result<(), WriteFault>
        ensures none { OnOk result (self.new ≡ []) }
        ensures text { PutsText W.Output writer.old writer.new result self.old }
    {
        write_all(&self.places[..self.len], writer)?;
        self.len = 0;
        Ok(())
    }

    /// Ends the line with a line feed, and writes the bytes that are held.
    pub fn write<W: Output>(&mut self, writer: &mut W) -> Result<(), WriteFault>
        requires room { length self.old < PLACES }
        ensures text { PutsText W.Output writer.old writer.new result (self.old ++ codes "\n") }
        ensures stays_failed { IsTrue (W.has_failed writer.old) → IsErr result }
    {
        self.text(b"\n");
        write_all(&self.places[..self.len], writer)
    }
}

// Puts a text at a place of the array, byte by byte, which the compiler turns into stores of several bytes.
#[inline(always)]
fn put_text<const N: usize>(places: &mut [u8; PLACES], start: usize, text: &[u8; N])
    requires room { start + length text.now ≤ PLACES }
    ensures { take (start + length text.now) places.new ≡ take start places.old ++ text.now }
{
    for count in 0..N {
        places[start + count] = text[count];
    }
}
