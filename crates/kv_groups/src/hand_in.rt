ghost use Rattle.std.specs.Prelude.{◌≡◌, ℕ, ◌+◌, ◌≤◌, ◌++◌, [], ◌∷◌, List, map, length};
ghost use Rattle.kv_ring.specs.declared.task.Task.{Task as TaskOf};
ghost use Rattle.kv_groups.specs.Batched.{of_session, tasks_in, IsEmptied};

use kv_base::{Request, ReservedList};
use kv_ring::{Task, Tasks};
use std::mem;

/// The tasks that a worker answers at once, in their order, each with its session's number.
pub type Batch = ReservedList<(u32, Task)>;

/// Moves the task behind the others of the batch, and leaves an empty one in its place.
fn move_task(task: &mut Task, session: u32, batch: &mut Batch)
    requires { 1 ≤ batch.old.spare }
    ensures batch { batch.new.items ≡ batch.old.items ++ of_session session (task.old ∷ []) }
    ensures spare { batch.new.spare + 1 ≡ batch.old.spare }
{
    let empty = Task {
        request: Request::Flush,
        reply: None,
    };
    let moved = mem::replace(task, empty);
    batch.append((session, moved)).unwrap();
}

/// Moves the tasks into the batch, in their order. Takes no memory.
fn move_tasks(tasks: &mut [Task], session: u32, batch: &mut Batch)
    requires { length tasks.old ≤ batch.old.spare }
    ensures batch { batch.new.items ≡ batch.old.items ++ of_session session tasks.old }
    ensures spare { batch.new.spare + length tasks.old ≡ batch.old.spare }
{
    for at in 0..tasks.len() {
        move_task(&mut tasks[at], session, batch);
    }
}

/// Moves the tasks into the batch, and leaves as many empty ones.
fn move_list(tasks: &mut Tasks, session: u32, batch: &mut Batch)
    requires { length tasks.old.items ≤ batch.old.spare }
    ensures batch { batch.new.items ≡ batch.old.items ++ of_session session tasks.old.items }
    ensures spare { batch.new.spare + length tasks.old.items ≡ batch.old.spare }
    ensures emptied { length tasks.new.items ≡ length tasks.old.items }
    ensures kept { tasks.new.spare ≡ tasks.old.spare }
{
    move_tasks(tasks.as_mut_slice(), session, batch);
}

/// Moves the tasks of the group, if there is one, into the batch.
pub fn hand_in(group: &mut Option<Tasks>, session: u32, batch: &mut Batch)
    requires { length (tasks_in group.old) ≤ batch.old.spare }
    ensures batch { batch.new.items ≡ batch.old.items ++ of_session session (tasks_in group.old) }
    ensures spare { batch.new.spare + length (tasks_in group.old) ≡ batch.old.spare }
    ensures emptied { IsEmptied group.old group.new }
{
    match group {
        Some(tasks) => move_list(tasks, session, batch),
        None => {}
    }
}

/// Moves the last task of the batch into this one's place.
fn take_task(task: &mut Task, batch: &mut Batch)
    requires { 1 ≤ length batch.old.items }
    ensures taken { (items : List (ℕ × TaskOf)) (item : ℕ × TaskOf)
        → batch.old.items ≡ items ++ item ∷ []
        → (batch.new.items ≡ items) × (task.new ≡ item.1) }
    ensures fewer { length batch.new.items + 1 ≡ length batch.old.items }
    ensures spare { batch.new.spare ≡ batch.old.spare + 1 }
{
    if let Some((_, taken)) = batch.take_last() {
        *task = taken;
    }
}

/// Moves the last tasks of the batch back, in their order. Takes no memory.
fn take_tasks(tasks: &mut [Task], batch: &mut Batch)
    requires { length tasks.old ≤ length batch.old.items }
    ensures taken { (front back : List (ℕ × TaskOf)) → batch.old.items ≡ front ++ back
        → length back ≡ length tasks.old
        → (batch.new.items ≡ front) × (tasks.new ≡ map (λ item. item.1) back) }
    ensures spare { batch.new.spare ≡ batch.old.spare + length tasks.old }
{
    for at in (0..tasks.len()).rev() {
        take_task(&mut tasks[at], batch);
    }
}

/// Moves as many of the last tasks of the batch back as the list has empty ones.
pub fn hand_back(tasks: &mut Tasks, batch: &mut Batch)
    requires { length tasks.old.items ≤ length batch.old.items }
    ensures taken { (front back : List (ℕ × TaskOf)) → batch.old.items ≡ front ++ back
        → length back ≡ length tasks.old.items
        → (batch.new.items ≡ front) × (tasks.new.items ≡ map (λ item. item.1) back) }
    ensures spare { batch.new.spare ≡ batch.old.spare + length tasks.old.items }
    ensures kept { tasks.new.spare ≡ tasks.old.spare }
{
    take_tasks(tasks.as_mut_slice(), batch);
}
