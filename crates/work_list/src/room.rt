//! Room in a list: some for what comes, and not much more.
ghost use Rattle.std.specs.Prelude.{◌≡◌, ◌<◌, OnOk, vec_capacity, vec_len};

use std::alloc::AllocError;

/// Makes room for one more, and for half as many as there are where there was none: twice as many would leave more unused.
pub(crate) fn make_room<T>(list: &mut Vec<T>) -> Result<(), AllocError>
    ensures items { list.new.items ≡ list.old.items }
    ensures room { OnOk result (vec_len list.new < vec_capacity list.new) }
{
    if list.len() < list.capacity() {
        return Ok(());
    }
    list.reserve_exact(list.len() / 2 + 1)
}
