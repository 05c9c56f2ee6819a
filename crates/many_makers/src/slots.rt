ghost use Rattle.std.specs.Prelude.{◌≡◌, All, IfOk, None, length};
ghost use Rattle.many_makers.specs.Slots.{AreMade, IsMade};

use pages::OutOfMemory;
use std::alloc::Global;

/// What was made for a number.
#[derive(Drop)]
pub(crate) struct Made<T> {
    pub(crate) index: u32,
    pub(crate) value: T,
}

/// A slot for each number, with what was made for it.
pub(crate) fn filled_slots<T: Drop, M: Fn(u32) -> Option<T>>(
    alloc: Global,
    count: u32,
    make: &M,
    lists: Vec<Vec<Made<T>>>,
) -> Result<Vec<Option<T>>, OutOfMemory>
    requires { All (λ l. All (IsMade (M.post make.now)) l.items) lists.items }
    ensures count { IfOk result (λ v. length v.items ≡ count) }
    ensures made { IfOk result (λ v. AreMade (M.post make.now) v.items) }
{
    let mut slots = empty_slots(alloc, count)?;
    for list in lists {
        put_all(&mut slots, make, list);
    }
    Ok(slots)
}

/// A slot for each number, with nothing in it.
fn empty_slots<T: Drop>(alloc: Global, count: u32) -> Result<Vec<Option<T>>, OutOfMemory>
    ensures count { IfOk result (λ v. length v.items ≡ count) }
    ensures empty { IfOk result (λ v. All (λ s. s ≡ None) v.items) }
{
    let mut slots = Vec::new(alloc);
    for _ in 0..count {
        slots.push(None)?;
    }
    Ok(slots)
}

/// Puts what was made into the slots of its numbers.
fn put_all<T: Drop, M: Fn(u32) -> Option<T>>(slots: &mut [Option<T>], make: &M, list: Vec<Made<T>>)
    requires list { All (IsMade (M.post make.now)) list.items }
    requires slots { AreMade (M.post make.now) slots.old }
    ensures count { length slots.new ≡ length slots.old }
    ensures slots { AreMade (M.post make.now) slots.new }
{
    for made in list {
        put(slots, make, made);
    }
}

/// Puts one of them into its slot.
fn put<T: Drop, M: Fn(u32) -> Option<T>>(slots: &mut [Option<T>], _make: &M, made: Made<T>)
    requires made { IsMade (M.post _make.now) made }
    requires slots { AreMade (M.post _make.now) slots.old }
    ensures count { length slots.new ≡ length slots.old }
    ensures slots { AreMade (M.post _make.now) slots.new }
{
    let index = made.index as usize;
    if index < slots.len() {
        slots[index] = Some(made.value);
    }
}
