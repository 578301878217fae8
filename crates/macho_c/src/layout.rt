//! The layout of a file as text.

ghost use Rattle.std.specs.Prelude.{◌≡◌, Some, MatchResult};
ghost use Rattle.macho_fields.specs.First.{IsUnbroken};
ghost use Rattle.macho_lines.specs.Layout.{layout_text};
ghost use Rattle.macho_c.specs.Layout.{IsLayout, IsLayoutRefusal, begun_with};

use crate::status::{NO_MEMORY, OK, REFUSED};
use macho_report::write_layout;
use macho_rules::{Refusal, verify};
use macho_text::{Failed, Output};
use std::alloc::Global;

/// Decides the rules of a file, and writes the layout of an accepted one to the buffer as text: its first
/// bytes, as many as there is room for, with no zero byte after them. `needed` is how many bytes the
/// whole text has. The status is as of `kesvuot_verify`. If it is not `OK`, `needed` is 0 and the
/// buffer is unchanged.
#[unsafe(no_mangle)]
pub extern "C" fn kesvuot_layout(
    alloc: Global,
    file: &[u8],
    text: &mut [u8],
    needed: &mut usize,
) -> u32
    ensures { IsLayout file.now result needed.new text.old text.new }
{
    *needed = 0;
    match layout_of(alloc, file) {
        Ok(layout) => {
            *needed = layout.len();
            write_front(&layout, text);
            OK
        }
        Err(Refusal::Broken(_)) => REFUSED,
        Err(Refusal::Memory) => NO_MEMORY,
    }
}

// The layout of the file.
fn layout_of(alloc: Global, file: &[u8]) -> Result<Vec<u8>, Refusal>
    ensures { MatchResult result (λ layout. IsUnbroken file.now × (layout.items ≡ layout_text file.now))
        (IsLayoutRefusal file.now) }
{
    let verified = verify(alloc, file)?;
    let mut layout = Text {
        bytes: Vec::new(alloc),
        has_failed: false,
    };
    match write_layout(&verified, &mut layout) {
        Ok(()) => Ok(layout.bytes),
        Err(_) => Err(Refusal::Memory),
    }
}

// Writes the first bytes to the buffer, as many as there is room for.
pub(crate) fn write_front(bytes: &[u8], buffer: &mut [u8])
    ensures { buffer.new ≡ begun_with bytes.now buffer.old }
{
    let count = bytes.len().min(buffer.len());
    buffer[..count].copy_from_slice(&bytes[..count]);
}

// A text in memory as an output. A write fails where memory runs out.
#[derive(Drop)]
struct Text {
    bytes: Vec<u8>,
    has_failed: bool,
}

impl Output for Text {
    ghost has_failed = { λ text. text.has_failed };

    ghost contents = { λ text. Some text.bytes.items };

    fn write(&mut self, piece: &[u8]) -> Result<usize, Failed> {
        if self.has_failed || self.bytes.extend_from_slice(piece).is_err() {
            self.has_failed = true;
            return Err(Failed);
        }
        Ok(piece.len())
    }

    fn failed(&self) -> bool {
        self.has_failed
    }
}
