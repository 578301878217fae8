//! The rows of fixups or imports, one after another, and a table of the caller.

ghost use Rattle.std.specs.Prelude.{List};
ghost use Rattle.std.specs.Iterator.{YieldsFirst};
ghost use Rattle.macho_fixups.specs.Batch.{IsBatch};
ghost use Rattle.macho_fixups.specs.declared.cursor.KesvuotFixupCursor.{KesvuotFixupCursor};

use crate::cursor::KesvuotFixupCursor;

/// Fixups or imports of an image.
pub trait Fixups {
    type Row: Copy;

    // The rows that remain at a cursor.
    ghost left: { Self → KesvuotFixupCursor → List Self.Row };

    // The next row, or `None` past the last.
    fn next(&self, cursor: &mut KesvuotFixupCursor) -> Option<Self::Row>
        ensures { YieldsFirst (left self.now) cursor.old result cursor.new };
}

/// Writes the next rows to the rows of the caller until either runs out, and returns how many it wrote.
pub fn fill<T: Fixups>(fixups: &T, cursor: &mut KesvuotFixupCursor, rows: &mut [T::Row]) -> usize
    ensures { IsBatch (T.left fixups.now) cursor.old cursor.new result rows.old rows.new }
{
    let mut written = 0;
    while written < rows.len() {
        let Some(row) = fixups.next(cursor) else {
            break;
        };
        rows[written] = row;
        written += 1;
    }
    written
}
