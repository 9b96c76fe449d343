ghost use Rattle.std.specs.Prelude.{◌≡◌, ◌+◌, ◌<◌, ◌≤◌, [], ◌∷◌, ◌++◌, reverse, vec_len};
ghost use Rattle.std.specs.Prelude.{vec_capacity};

/// Appends where there is room, which takes no memory.
pub(crate) fn push_within<T: Drop>(items: &mut Vec<T>, item: T)
    requires room { vec_len items.old < vec_capacity items.old }
    ensures items { items.new.items ≡ items.old.items ++ item ∷ [] }
    ensures len { vec_len items.new ≡ vec_len items.old + 1 }
    ensures capacity { vec_capacity items.old ≤ vec_capacity items.new }
{
    let _ = items.push(item);
}

/// Takes the last item out.
pub(crate) fn take_last<T: Drop>(items: &mut Vec<T>) -> T
    requires { 0 < vec_len items.old }
    ensures items { items.old.items ≡ items.new.items ++ result ∷ [] }
    ensures len { vec_len items.new + 1 ≡ vec_len items.old }
    ensures capacity { vec_capacity items.new ≡ vec_capacity items.old }
{
    match items.pop() {
        Some(item) => item,
        None => unreachable!(),
    }
}

/// Turns the order round.
pub(crate) fn turn_round<T: Drop>(items: &mut Vec<T>)
    ensures items { items.new.items ≡ reverse items.old.items }
    ensures len { vec_len items.new ≡ vec_len items.old }
{
    items.reverse();
}
