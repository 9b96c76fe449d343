ghost use Rattle.std.specs.Prelude.{◌≡◌, ◌+◌, ◌-◌, ◌<◌, ◌≤◌, [], ◌∷◌, ◌++◌, insert, vec_len};
ghost use Rattle.std.specs.Prelude.{vec_capacity};

/// Inserts where there is room, which takes no memory.
pub fn insert_within<T: Drop>(items: &mut Vec<T>, at: usize, item: T)
    requires bounds { at ≤ vec_len items.old }
    requires room { vec_len items.old < vec_capacity items.old }
    ensures items { items.new.items ≡ insert items.old.items at item }
    ensures len { vec_len items.new ≡ vec_len items.old + 1 }
    ensures capacity { vec_capacity items.old ≤ vec_capacity items.new }
{
    let _ = items.insert(at, item);
}

/// Appends where there is room, which takes no memory.
pub fn push_within<T: Drop>(items: &mut Vec<T>, item: T)
    requires room { vec_len items.old < vec_capacity items.old }
    ensures items { items.new.items ≡ items.old.items ++ item ∷ [] }
    ensures len { vec_len items.new ≡ vec_len items.old + 1 }
    ensures capacity { vec_capacity items.old ≤ vec_capacity items.new }
{
    let _ = items.push(item);
}

/// Takes the last item out.
pub fn take_last<T: Drop>(items: &mut Vec<T>) -> T
    requires { 0 < vec_len items.old }
    ensures items { items.old.items ≡ items.new.items ++ result ∷ [] }
    ensures len { vec_len items.new + 1 ≡ vec_len items.old }
    ensures capacity { vec_capacity items.new ≡ vec_capacity items.old }
{
    match items.pop() {
        Some(item) => item,
        None => unreachable!(),
    }
}

/// Moves what stands from this place on into an empty vector.
pub fn move_tail<T: Drop>(from: &mut Vec<T>, at: usize, to: &mut Vec<T>)
    requires empty { to.old.items ≡ [] }
    requires room { vec_len from.old ≤ at + vec_capacity to.old }
    ensures items { from.old.items ≡ from.new.items ++ to.new.items }
    ensures len { at ≤ vec_len from.old → vec_len from.new ≡ at }
    ensures short { vec_len from.old ≤ at → to.new.items ≡ [] }
    ensures capacity { vec_capacity from.new ≡ vec_capacity from.old }
    ensures to_capacity { vec_capacity to.old ≤ vec_capacity to.new }
{
    while from.len() > at {
        let item = take_last(from);
        push_within(to, item);
    }
    to.reverse();
}

/// Moves all items to the end of another vector.
pub fn append_within<T: Drop>(to: &mut Vec<T>, from: &mut Vec<T>)
    requires room { vec_len to.old + vec_len from.old ≤ vec_capacity to.old }
    ensures items { to.new.items ≡ to.old.items ++ from.old.items }
    ensures len { vec_len to.new ≡ vec_len to.old + vec_len from.old }
    ensures capacity { vec_capacity to.old ≤ vec_capacity to.new }
    ensures from_items { from.new.items ≡ [] }
    ensures from_len { vec_len from.new ≡ 0 }
    ensures from_capacity { vec_capacity from.new ≡ vec_capacity from.old }
{
    let _ = to.append(from);
}

/// Moves the first item, if there is one, to the end of the vector before it.
pub fn move_first<T: Drop>(to: &mut Vec<T>, from: &mut Vec<T>)
    requires room { 0 < vec_len from.old → vec_len to.old < vec_capacity to.old }
    ensures items { to.new.items ++ from.new.items ≡ to.old.items ++ from.old.items }
    ensures len { 0 < vec_len from.old → (vec_len from.new + 1 ≡ vec_len from.old)
        × (vec_len to.new ≡ vec_len to.old + 1) }
    ensures none { vec_len from.old ≡ 0 → (vec_len from.new ≡ 0)
        × (vec_len to.new ≡ vec_len to.old) }
    ensures capacity { vec_capacity to.old ≤ vec_capacity to.new }
    ensures from_capacity { vec_capacity from.new ≡ vec_capacity from.old }
{
    if from.len() > 0 {
        let item = from.remove(0);
        push_within(to, item);
    }
}

/// Moves the last item, if there is one, to the front of the vector behind it.
pub fn move_last<T: Drop>(from: &mut Vec<T>, to: &mut Vec<T>)
    requires room { 0 < vec_len from.old → vec_len to.old < vec_capacity to.old }
    ensures items { from.new.items ++ to.new.items ≡ from.old.items ++ to.old.items }
    ensures len { 0 < vec_len from.old → (vec_len from.new + 1 ≡ vec_len from.old)
        × (vec_len to.new ≡ vec_len to.old + 1) }
    ensures none { vec_len from.old ≡ 0 → (vec_len from.new ≡ 0)
        × (vec_len to.new ≡ vec_len to.old) }
    ensures capacity { vec_capacity to.old ≤ vec_capacity to.new }
    ensures from_capacity { vec_capacity from.new ≡ vec_capacity from.old }
{
    if from.len() > 0 {
        let item = take_last(from);
        insert_within(to, 0, item);
    }
}

/// Takes the first item out.
pub fn take_first<T: Drop>(items: &mut Vec<T>) -> T
    requires { 0 < vec_len items.old }
    ensures items { items.old.items ≡ result ∷ items.new.items }
    ensures len { vec_len items.new + 1 ≡ vec_len items.old }
    ensures capacity { vec_capacity items.new ≡ vec_capacity items.old }
{
    items.remove(0)
}
