//! The entries of a table whose entries have one size.

ghost use Rattle.std.specs.Prelude.{◌≡◌, [], map, take, drop, slice_get};
ghost use Rattle.std.specs.Iterator.{YieldsFirst, item_count};
ghost use Rattle.macho_fields.specs.Bytes.{bytes_of};
ghost use Rattle.macho_image.specs.Symbol.{items_inside};

use crate::items::Items;
use macho_fields::Bytes;
use std::marker::{Model, PhantomData};

/// An entry of a table whose entries have one size.
pub trait TableEntry: Copy {
    ghost use Rattle.std.specs.Prelude.{◌≡◌, ◌+◌, ◌≤◌, ℕ, List, length};
    ghost use Rattle.macho_fields.specs.Bytes.{bytes_of};

    /// How many bytes it takes.
    ghost SIZE: { ℕ };

    /// The entry that begins at a place of an image.
    ghost entry_at: { List ℕ → ℕ → Self };

    /// How many bytes it takes.
    const SIZE: u64;

    /// Reads the entry at `place`.
    fn read(image: Bytes, place: u64) -> Self
        requires { place + SIZE ≤ length (bytes_of image) }
        ensures { result ≡ entry_at (bytes_of image.entry) place };
}

/// The entries of a table that remain, in its order.
#[derive(Drop)]
pub struct TableEntries<'a, E: TableEntry> {
    image: Bytes<'a>,
    items: Items,
    entry: PhantomData<E>,
}

impl<'a, E: TableEntry> Model for TableEntries<'a, E> {
    ghost use Rattle.std.specs.Prelude.{List, map};
    ghost use Rattle.macho_fields.specs.Bytes.{bytes_of};
    ghost use Rattle.macho_image.specs.Views.{HoldItems};

    ghost Value = { List E };

    ghost view = { λ entries. map (E.entry_at (bytes_of entries.image)) entries.items };

    ghost invariant = { λ entries. HoldItems (bytes_of entries.image) E.SIZE entries.items };
}

impl<'a, E: TableEntry> Iterator for TableEntries<'a, E> {
    type Item = E;

    ghost next_gives = { YieldsFirst (λ left. left) };

    ghost remaining = { item_count (λ left. left) };

    #[inline]
    fn next(&mut self) -> Option<E> {
        let place = self.items.next()?;
        Some(E::read(self.image, place))
    }
}

impl<'a, E: TableEntry> TableEntries<'a, E> {
    /// The `count` entries of the table that begins at `place`, in its order. Empty if the table
    /// does not lie inside the image.
    pub fn in_table(image: Bytes<'a>, place: u64, count: u64) -> TableEntries<'a, E>
        ensures { result ≡ map (E.entry_at (bytes_of image.entry))
            (items_inside (bytes_of image.entry) place E.SIZE count) }
    {
        TableEntries {
            image,
            items: Items::inside(image, place, count, E::SIZE),
            entry: PhantomData,
        }
    }

    // No entries.
    pub(crate) fn none(image: Bytes<'a>) -> TableEntries<'a, E>
        ensures { result ≡ [] }
    {
        TableEntries {
            image,
            items: Items::none(),
            entry: PhantomData,
        }
    }

    /// Up to `count` entries, starting at index `first`. It does not scan the entries before them.
    pub fn range(&self, first: u64, count: u64) -> TableEntries<'a, E>
        ensures { result ≡ take count (drop first self.now) }
    {
        TableEntries {
            image: self.image,
            items: self.items.range(first, count),
            entry: PhantomData,
        }
    }

    /// The entry with this index, or `None` past the end. It does not scan the entries before it.
    pub fn get(&self, index: u64) -> Option<E>
        ensures { result ≡ slice_get self.now index }
    {
        self.range(index, 1).next()
    }
}
