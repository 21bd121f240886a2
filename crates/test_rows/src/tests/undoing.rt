//! Changes pushed, copied and taken out, by hand.

use super::{bytes, number};
use sharing::Shared;
use std::alloc::Global;
use undo_log::Undo;
use val_types::{Change, NoMemory};

/// A change of a table as a table of tests holds it: its name, and the number in its row.
static CHANGES: [(&[u8], i64); 4] = [(b"t", 1), (b"t", 2), (b"u", -3), (b"t", 1)];

fn put(alloc: Global, table: &[u8], of: i64) -> Result<Change, NoMemory> {
    Ok(Change::Insert {
        table: Shared::new(alloc, bytes(alloc, table))?,
        row: Shared::new(alloc, number(alloc, of))?,
    })
}

fn fill(alloc: Global, undo: &mut Undo) -> Result<(), NoMemory> {
    for (table, of) in &CHANGES {
        undo.push(put(alloc, *table, *of)?)?;
    }
    Ok(())
}

/// Whether there are so many changes since a mark.
fn has_since(undo: &Undo, mark: u64, wanted: usize) -> bool {
    if mark > undo.mark() {
        return false;
    }
    match undo.since(mark) {
        Ok(changes) => changes.len() == wanted,
        Err(_) => false,
    }
}

/// Whether the change that is taken out is one of a table, or there is none, where the name is empty.
fn is_popped(undo: &mut Undo, wanted: &[u8]) -> bool {
    match undo.pop() {
        Some(change) => change.table().as_slice() == wanted,
        None => wanted.len() == 0,
    }
}

#[test]
fn changes_and_marks(rt: HostRuntime) {
    let mut undo = Undo::new(rt.alloc());
    assert!(rt; fill(rt.alloc(), &mut undo).is_ok());
    assert!(rt; undo.mark() == 4);
    assert!(rt; has_since(&undo, 2, 2) && has_since(&undo, 4, 0) && has_since(&undo, 0, 4));
    assert!(rt; is_popped(&mut undo, b"t") && is_popped(&mut undo, b"u"));
    assert!(rt; undo.mark() == 2);
    undo.clear();
    assert!(rt; is_popped(&mut undo, b""));
}
