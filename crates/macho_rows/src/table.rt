//! The rows of a table, one after another, and a table of the caller.

ghost use Rattle.std.specs.Prelude.{◌≡◌, ◌^◌, ◌<◌, length, List};
ghost use Rattle.std.specs.Iterator.{YieldsFirst};
ghost use Rattle.macho_rows.specs.Cursor.{start, IsBatch};
ghost use Rattle.macho_rows.specs.declared.cursor.KesvuotCursor.{KesvuotCursor};

use crate::cursor::{KesvuotCursor, START};

/// A table of an image.
pub trait Table {
    type Row: Copy;

    // The rows that remain at a cursor.
    ghost left: { Self → KesvuotCursor → List Self.Row };

    // The next row, or `None` past the last.
    fn next(&self, cursor: &mut KesvuotCursor) -> Option<Self::Row>
        ensures { YieldsFirst (left self.now) cursor.old result cursor.new };
}

/// Writes the next rows of a table to the rows of the caller until either runs out, and returns how many
/// it wrote.
pub fn fill<T: Table>(table: &T, cursor: &mut KesvuotCursor, rows: &mut [T::Row]) -> usize
    ensures { IsBatch (T.left table.now) cursor.old cursor.new result rows.old rows.new }
{
    let mut written = 0;
    while written < rows.len() {
        let Some(row) = table.next(cursor) else {
            break;
        };
        rows[written] = row;
        written += 1;
    }
    written
}

/// How many rows a table has.
pub fn count<T: Table>(table: &T) -> u64
    requires { length (T.left table.now start) < 2 ^ 64 }
    ensures { result ≡ length (T.left table.now start) }
{
    let mut cursor = START;
    let mut count = 0;
    while table.next(&mut cursor).is_some() {
        count += 1;
    }
    count
}
