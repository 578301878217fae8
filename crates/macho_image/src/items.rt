//! The items of a table, one after another.

ghost use Rattle.std.specs.Prelude.{◌≡◌, ◌+◌, ◌*◌, ◌^◌, ◌<◌, [], take, drop};
ghost use Rattle.std.specs.Iterator.{YieldsFirst, item_count};
ghost use Rattle.macho_fields.specs.Bytes.{bytes_of};
ghost use Rattle.macho_image.specs.Symbol.{items_from, items_inside};
ghost use Rattle.macho_image.specs.Views.{HoldItems};

use macho_fields::Bytes;
use std::marker::Model;

// The places of the items of a table that remain, in the order of the table.
#[derive(Drop)]
pub(crate) struct Items {
    place: u64,
    each: u64,
    left: u64,
}

impl Model for Items {
    ghost use Rattle.std.specs.Prelude.{ℕ, ◌+◌, ◌*◌, ◌^◌, ◌<◌, List};
    ghost use Rattle.macho_image.specs.Symbol.{items_from};

    ghost Value = { List ℕ };

    ghost view = { λ items. items_from items.each items.place items.left };

    ghost invariant = { λ items. items.place + items.each * items.left < 2 ^ 64 };
}

impl Iterator for Items {
    type Item = u64;

    ghost next_gives = { YieldsFirst (λ left. left) };

    ghost remaining = { item_count (λ left. left) };

    fn next(&mut self) -> Option<u64> {
        if self.left == 0 {
            return None;
        }
        let place = self.place;
        self.place += self.each;
        self.left -= 1;
        Some(place)
    }
}

impl Items {
    // The `count` items of `each` bytes from `place` on.
    pub(crate) fn new(place: u64, count: u64, each: u64) -> Items
        requires { place + count * each < 2 ^ 64 }
        ensures { result ≡ items_from each place count }
    {
        Items {
            place,
            each,
            left: count,
        }
    }

    // The `count` items of `each` bytes from `place` on, where they lie inside the image, and none
    // otherwise.
    pub(crate) fn inside(image: Bytes, place: u64, count: u64, each: u64) -> Items
        ensures items { result ≡ items_inside (bytes_of image.entry) place each count }
        ensures held { HoldItems (bytes_of image.entry) each result }
    {
        if image.contains_table(place, count, each) {
            Items::new(place, count, each)
        } else {
            Items::none()
        }
    }

    // No items.
    pub(crate) fn none() -> Items
        ensures { result ≡ [] }
    {
        Items {
            place: 0,
            each: 0,
            left: 0,
        }
    }

    // Up to `count` items, starting at index `first`.
    pub(crate) fn range(&self, first: u64, count: u64) -> Items
        ensures { result ≡ take count (drop first self.now) }
    {
        let first = first.min(self.left);
        Items {
            place: self.place + self.each * first,
            each: self.each,
            left: count.min(self.left - first),
        }
    }
}
