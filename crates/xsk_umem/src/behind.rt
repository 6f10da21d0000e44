//! The room behind the items of a list.
ghost use Rattle.std.specs.Prelude.{◌≡◌, ◌≤◌, vec_len, vec_capacity};

/// Writes copies of a piece behind the items of a list, so many as have room there, and takes them back. A processor that has none of
/// the room's lines waits for them side by side then, and not for each where it's written at last.
pub(crate) fn write_behind<T: Copy + Drop>(list: &mut Vec<T>, piece: &[T], count: usize)
    ensures items { list.new.items ≡ list.old.items }
    ensures len { vec_len list.new ≡ vec_len list.old }
    ensures capacity { vec_capacity list.old ≤ vec_capacity list.new }
{
    let len = list.len();
    for _ in 0..count {
        if list.capacity() - list.len() < piece.len() {
            break;
        }
        list.extend_from_slice(piece).unwrap();
    }
    list.truncate(len);
}
