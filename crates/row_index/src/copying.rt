//! The lists once more.
ghost use Rattle.std.specs.Prelude.{◌≡◌, ℕ, IfOk};
ghost use Rattle.block_list.specs.Layouts.{flat};
ghost use Rattle.row_index.specs.Lists.{numbers_at};

use block_list::Blocks;
use std::alloc::Global;
use val_types::NoMemory;

/// The same numbers in the same order.
pub fn numbers_copied(alloc: Global, numbers: &Blocks) -> Result<Blocks, NoMemory>
    ensures { IfOk result (λ copy. flat copy.blocks ≡ flat numbers.now.blocks) }
{
    let mut copy = Blocks::new(alloc);
    copy.make_room(alloc, numbers.len())?;
    let mut at = numbers.first();
    while let Some(number) = numbers.get(at) {
        let end = copy.end();
        copy.put(end, number);
        at = numbers.after(at);
    }
    Ok(copy)
}

/// Lists of the same numbers.
pub fn copied_lists(alloc: Global, lists: &Vec<Blocks>) -> Result<Vec<Blocks>, NoMemory>
    ensures { IfOk result (λ copy. (which : ℕ) → numbers_at copy.items which ≡ numbers_at lists.now.items which) }
{
    let mut copy = Vec::with_capacity(alloc, lists.len())?;
    for numbers in lists.as_slice() {
        copy.push(numbers_copied(alloc, numbers)?)?;
    }
    Ok(copy)
}
