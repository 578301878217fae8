//! How a list that is full grows.

ghost use Rattle.std.specs.Prelude.{◌≡◌, ◌+◌, ◌<◌, ◌≤◌, max, length, OnOk, OnErr};
ghost use Rattle.std.specs.Vec.{vec_capacity};

use std::alloc::AllocError;

// Makes room for one more. Memory is allocated only if the list is full, and then for as many more
// as there are, or for four if there are fewer. If it runs out, nothing has changed.
pub(crate) fn make_room<T>(items: &mut Vec<T>) -> Result<(), AllocError>
    ensures same { items.new.items ≡ items.old.items }
    ensures ok { OnOk result (length items.old.items < vec_capacity items.new) }
    ensures err { OnErr result (vec_capacity items.new ≡ vec_capacity items.old) }
    ensures room { length items.old.items < vec_capacity items.old
        → vec_capacity items.new ≡ vec_capacity items.old }
    ensures more { vec_capacity items.old ≤ length items.old.items
        → vec_capacity items.new ≤ length items.old.items + max (length items.old.items) 4 }
    ensures memory { OnErr result (vec_capacity items.old ≤ length items.old.items) }
{
    let count = items.len();
    if count == items.capacity() {
        items.reserve_exact(count.max(4))?;
    }
    Ok(())
}
