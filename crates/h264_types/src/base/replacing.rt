//! A range of a list's items replaced by others.

ghost use Rattle.std.specs.Prelude.{◌≡◌, ◌+◌, ◌-◌, ◌≤◌, ◌++◌, take, drop, length, vec_len};
ghost use Rattle.std.specs.Vec.{vec_capacity};

/// Puts these items in place of those from `from` on and below `to`. There is room for them where
/// those are gone. They are written over as many of those; the items behind move only where these
/// are more or fewer. It takes no memory.
pub fn replace_range<T: Drop>(items: &mut Vec<T>, from: usize, to: usize, mut made: Vec<T>)
    requires ordered { from ≤ to }
    requires inside { to ≤ vec_len items.old }
    requires room { vec_len items.old + vec_len made ≤ vec_capacity items.old + (to - from) }
    ensures items { items.new.items
        ≡ take from items.old.items ++ made.items ++ drop to items.old.items }
    ensures capacity { vec_capacity items.old ≤ vec_capacity items.new }
{
    let count = made.len();
    if count <= to - from {
        remove_range(items, from + count, to);
        write_over(items, from, from + count, made);
    } else {
        write_first_over(items, from, to, &mut made);
        put_in(items, to, made);
    }
}

/// Writes these items over as many others.
fn write_over<T: Drop>(items: &mut Vec<T>, from: usize, to: usize, mut made: Vec<T>)
    requires inside { to ≤ vec_len items.old }
    requires equal { from + vec_len made ≡ to }
    ensures items { items.new.items
        ≡ take from items.old.items ++ made.items ++ drop to items.old.items }
    ensures capacity { vec_capacity items.old ≤ vec_capacity items.new }
{
    items[from..to].swap_with_slice(made.as_mut_slice());
}

/// Writes the first of these items over those of a range, and keeps the others.
fn write_first_over<T: Drop>(items: &mut Vec<T>, from: usize, to: usize, made: &mut Vec<T>)
    requires ordered { from ≤ to }
    requires inside { to ≤ vec_len items.old }
    requires more { to - from ≤ vec_len made.old }
    ensures items { items.new.items ≡ take from items.old.items
        ++ take (to - from) made.old.items ++ drop to items.old.items }
    ensures len { vec_len items.new ≡ vec_len items.old }
    ensures capacity { vec_capacity items.new ≡ vec_capacity items.old }
    ensures made { made.new.items ≡ drop (to - from) made.old.items }
{
    swap_first(made.as_mut_slice(), &mut items[from..to]);
    remove_range(made, 0, to - from);
}

/// Changes the first of these items for those of the other slice.
fn swap_first<T: Drop>(made: &mut [T], over: &mut [T])
    requires inside { length over.old ≤ length made.old }
    ensures over { over.new ≡ take (length over.old) made.old }
    ensures kept { drop (length over.old) made.new ≡ drop (length over.old) made.old }
    ensures len { length made.new ≡ length made.old }
{
    made[..over.len()].swap_with_slice(over);
}

/// Puts these items in front of the item at the place. There is room for them.
fn put_in<T: Drop>(items: &mut Vec<T>, at: usize, mut made: Vec<T>)
    requires inside { at ≤ vec_len items.old }
    requires room { vec_len items.old + vec_len made ≤ vec_capacity items.old }
    ensures items { items.new.items
        ≡ take at items.old.items ++ made.items ++ drop at items.old.items }
    ensures capacity { vec_capacity items.old ≤ vec_capacity items.new }
{
    let count = made.len();
    if count == 1 {
        // (moved at once, where a rotation would reverse all behind it)
        put_one_in(items, at, made);
        return;
    }
    let Ok(()) = items.append(&mut made) else {
        unreachable!()
    };
    items[at..].rotate_right(count);
}

/// Puts one item in front of the item at the place, and moves those behind it at once.
fn put_one_in<T: Drop>(items: &mut Vec<T>, at: usize, mut made: Vec<T>)
    requires inside { at ≤ vec_len items.old }
    requires one { vec_len made ≡ 1 }
    requires room { vec_len items.old + 1 ≤ vec_capacity items.old }
    ensures items { items.new.items
        ≡ take at items.old.items ++ made.items ++ drop at items.old.items }
    ensures capacity { vec_capacity items.old ≤ vec_capacity items.new }
{
    let item = made.swap_remove(0);
    let Ok(()) = items.insert(at, item) else {
        unreachable!()
    };
}

/// Drops the items from `low` on and below `high`.
fn remove_range<T: Drop>(items: &mut Vec<T>, low: usize, high: usize)
    requires ordered { low ≤ high }
    requires inside { high ≤ vec_len items.old }
    ensures items { items.new.items ≡ take low items.old.items ++ drop high items.old.items }
    ensures capacity { vec_capacity items.new ≡ vec_capacity items.old }
{
    drop(items.drain(low..high));
}
