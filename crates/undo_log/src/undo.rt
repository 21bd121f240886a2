//! A list of changes with marks.
ghost use Rattle.std.specs.Prelude.{◌≡◌, ◌++◌, ◌∷◌, [], ◌≤◌, drop, length, IfOk, MatchOption, OnErr, OnOk};

use std::alloc::Global;
use std::marker::Model;
use val_types::{Change, Duplicate, List, NoMemory};

/// Changes, the last one at the end.
#[derive(Drop)]
pub struct Undo {
    alloc: Global,
    changes: List<Change>,
}

impl Model for Undo {
    ghost use Rattle.std.specs.Prelude.{List as Items};
    ghost use Rattle.val_types.specs.declared.change.Change.{Change as OneChange};

    ghost Value = { Items OneChange };

    ghost view = { λ u. u.changes };
}

impl Undo {
    /// No change, which takes no memory.
    pub fn new(alloc: Global) -> Undo
        ensures { result ≡ [] }
    {
        Undo {
            alloc,
            changes: List::new(alloc),
        }
    }

    /// Puts a change at the end.
    pub fn push(&mut self, change: Change) -> Result<(), NoMemory>
        ensures ok { OnOk result (self.new ≡ self.old ++ change ∷ []) }
        ensures err { OnErr result (self.new ≡ self.old) }
    {
        self.changes.push(change)
    }

    /// How many changes there are; where changes are taken back to.
    pub fn mark(&self) -> u64
        ensures { result ≡ length self.now }
    {
        self.changes.len() as u64
    }

    /// The changes behind a mark once more, the first of them first; no row is copied.
    pub fn since(&self, mark: u64) -> Result<List<Change>, NoMemory>
        requires { mark ≤ length self.now }
        ensures { IfOk result (λ changes. changes ≡ drop mark self.now) }
    {
        Change::duplicate_all(self.alloc, &self.changes.as_slice()[mark as usize..])
    }

    /// Takes the last change out.
    pub fn pop(&mut self) -> Option<Change>
        ensures { MatchOption result ((self.old ≡ []) × (self.new ≡ []))
            (λ last. self.old ≡ self.new ++ last ∷ []) }
    {
        self.changes.pop()
    }

    /// Takes all changes out.
    pub fn clear(&mut self)
        ensures { self.new ≡ [] }
    {
        self.changes.clear();
    }
}
