// Lists whose memory stays.

ghost use Rattle.std.specs.Prelude.{◌≡◌, ◌+◌, ◌-◌, ◌≤◌, ◌++◌, [], map, length, replicate};
ghost use Rattle.std.specs.Prelude.{take, vec_len};
ghost use Rattle.std.specs.Vec.{vec_items, vec_capacity};

/// Appends items to a list that has room for them.
pub(crate) fn append_within(list: &mut Vec<i32>, items: &[i32])
    requires { vec_len list.old + length items.now ≤ vec_capacity list.old }
    ensures items { list.new.items ≡ list.old.items ++ items.now }
    ensures capacity { vec_capacity list.new ≡ vec_capacity list.old }
{
    for item in items {
        list.push_reserved(*item);
    }
}

/// Appends items to a list, as many as it has room for.
pub(crate) fn append_most(list: &mut Vec<i32>, items: &[i32])
    ensures items { list.new.items ≡ list.old.items
        ++ take (vec_capacity list.old - length list.old.items) items.now }
    ensures capacity { vec_capacity list.new ≡ vec_capacity list.old }
{
    let room = list.capacity().saturating_sub(list.len());
    append_within(list, &items[..items.len().min(room)]);
}

/// Empties each of these lists.
pub(crate) fn clear_all<T: Drop>(lists: &mut Vec<Vec<T>>)
    ensures items { map vec_items lists.new.items ≡ replicate (vec_len lists.old) [] }
    ensures capacity { map vec_capacity lists.new.items ≡ map vec_capacity lists.old.items }
{
    for list in lists.iter_mut() {
        list.clear();
    }
}
