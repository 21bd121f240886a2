//! Sessions and their open transactions.
ghost use Rattle.std.specs.Prelude.{◌≡◌, ◌∷◌, ◌++◌, [], false, not, find, is_some, IfOk, OnErr, OnOk};
ghost use Rattle.std.specs.Option.{option_map};
ghost use Rattle.session_model.specs.Sessions.{just_opened};
ghost use Rattle.session_model.specs.Commands.{is_save_of, saved, saves_but};
ghost use Rattle.session_shared.specs.Saving.{changes_at, one_more_if, went_back};
ghost use Rattle.session_model.specs.binlog_sizes.Sizes.{are_too_large};

use crate::saves::{Save, marks_at, place_of, put_last, take_out};
use session_ctx::SessionVars;
use session_model::Format;
use session_model::log_entries::Item;
use std::alloc::Global;
use std::marker::Model;
use val_types::{Bytes, Duplicate, NoMemory};
use waiting_entries::binlog_items::Items;

/// An open transaction: its items, its savepoints, the oldest first, and whether a row was ever changed in it. It is dropped here.
pub struct Open {
    items: Items,
    saves: Vec<Save>,
    changed: bool,
}

impl Model for Open {
    ghost use Rattle.session_model.specs.Sessions.{Open as Transaction};
    ghost use Rattle.session_model.specs.log_entries.declared.entries.Item.{Item as LoggedItem};

    ghost Value = { Transaction LoggedItem };

    ghost use Rattle.std.specs.Prelude.{◌≡◌, false};
    ghost use Rattle.session_model.specs.binlog_sizes.Sizes.{are_too_large};

    ghost view = { λ o. record { items = o.items; saves = o.saves.items; changed = o.changed } };

    ghost invariant = { λ o. are_too_large o.items ≡ false };
}

impl Drop for Open {
    fn drop(self) {
        let Open {
            items,
            saves,
            changed: _,
        } = self;
        drop(items);
        drop(saves);
    }
}

impl Open {
    /// A transaction in which nothing was done yet.
    pub fn new(alloc: Global) -> Open
        ensures { result ≡ just_opened }
    {
        Open {
            items: Items::new(alloc),
            saves: Vec::new(alloc),
            changed: false,
        }
    }

    /// Its items.
    pub fn items(&self) -> &Items
        ensures items { result.now ≡ self.now.items }
        ensures small { are_too_large result.now ≡ false }
    {
        &self.items
    }

    /// Puts an item at the end, which has changed a row, as long as the items do not have too many bytes then.
    pub fn add_item(&mut self, item: Item) -> Result<bool, NoMemory>
        ensures kept { IfOk result (λ is_kept. is_kept ≡ not (are_too_large (self.old.items ++ item ∷ []))) }
        ensures open { IfOk result (λ is_kept. self.new ≡ one_more_if is_kept item self.old) }
    {
        let mark = self.items.mark();
        self.items.add(item)?;
        if self.items.are_too_large() {
            self.items.cut(mark);
            return Ok(false);
        }
        self.changed = true;
        Ok(true)
    }

    /// Sets a savepoint, which stands at so many changes. One of the name moves. All memory is taken before anything is.
    pub fn save(&mut self, alloc: Global, name: &Bytes, changes: u64) -> Result<(), NoMemory>
        ensures ok { OnOk result (self.new ≡ saved name.now changes self.old) }
        ensures err { OnErr result (self.new ≡ self.old) }
    {
        let copy = name.duplicate(alloc)?;
        self.saves.reserve(1)?;
        take_out(name, &mut self.saves);
        let save = Save {
            name: copy,
            items: self.items.mark(),
            changes,
        };
        put_last(&mut self.saves, save);
        Ok(())
    }

    /// Whether there is a savepoint of a name.
    pub fn has_save(&self, name: &Bytes) -> bool
        ensures { result ≡ is_some (find (is_save_of name.now) self.now.saves) }
    {
        place_of(name, &self.saves).is_some()
    }

    /// Drops the savepoint of a name.
    pub fn release(&mut self, name: &Bytes)
        ensures { self.new ≡ record self.old { saves = saves_but name.now (self.old.saves) } }
    {
        take_out(name, &mut self.saves);
    }

    /// Goes back to the savepoint of a name, if there is one: items and savepoints behind it are dropped. Gives
    /// how many changes the transaction had there.
    pub fn go_back(&mut self, name: &Bytes) -> Option<u64>
        ensures changes { result ≡ changes_at (find (is_save_of name.now) self.old.saves) }
        ensures cut { self.new ≡ went_back name.now (find (is_save_of name.now) self.old.saves) self.old }
    {
        let Some(place) = place_of(name, &self.saves) else {
            return None;
        };
        let Some((items, changes)) = marks_at(&self.saves, place) else {
            return None;
        };
        self.items.cut(items.min(self.items.mark()));
        self.saves.truncate(place + 1);
        Some(changes)
    }
}

/// A session that has had a command: its variables, how its statements are logged, and perhaps an open transaction.
#[derive(Drop)]
pub struct Session {
    pub vars: SessionVars,
    pub format: Format,
    pub transaction: Option<Open>,
}

impl Model for Session {
    ghost use Rattle.session_model.specs.Sessions.{Session as OneSession};
    ghost use Rattle.session_model.specs.log_entries.declared.entries.Item.{Item as LoggedItem};

    ghost Value = { OneSession LoggedItem };

    ghost view = { λ s. record { vars = s.vars; format = s.format; transaction = s.transaction } };
}
