//! Savepoints.
ghost use Rattle.std.specs.Prelude.{◌≡◌, ◌<◌, ◌≤◌, ◌++◌, ◌∷◌, [], length, position, slice_get, vec_capacity, vec_len, IfSome};
ghost use Rattle.session_model.specs.Commands.{is_save_of, saves_but};
ghost use Rattle.session_shared.specs.Saving.{marks_of};

use std::marker::Model;
use val_types::Bytes;

/// A savepoint: its name, and how many items and changes the transaction had.
#[derive(Drop)]
pub struct Save {
    pub(crate) name: Bytes,
    pub(crate) items: u64,
    pub(crate) changes: u64,
}

impl Model for Save {
    ghost use Rattle.session_model.specs.Sessions.{Save as Savepoint};

    ghost Value = { Savepoint };

    ghost view = { λ s. record { name = s.name; items = s.items; changes = s.changes } };
}

/// Whether a savepoint has a name.
fn is_save_of(name: &Bytes, save: &Save) -> bool
    ensures { result ≡ is_save_of name.now save.now }
{
    *name == save.name
}

/// The place of the first savepoint of a name.
pub(crate) fn place_of(name: &Bytes, saves: &[Save]) -> Option<usize>
    ensures place { result ≡ position (is_save_of name.now) saves.now }
    ensures within { IfSome result (λ at. at < length saves.now) }
{
    saves.iter().position(|save| *name == save.name)
}

/// How many items and changes there were at the savepoint at a place.
pub(crate) fn marks_at(saves: &[Save], place: usize) -> Option<(u64, u64)>
    ensures { result ≡ marks_of (slice_get saves.now place) }
{
    match saves.get(place) {
        None => None,
        Some(save) => Some((save.items, save.changes)),
    }
}

/// Takes out the savepoints of a name. The room stays.
pub(crate) fn take_out(name: &Bytes, saves: &mut Vec<Save>)
    ensures left { saves.new.items ≡ saves_but name.now saves.old.items }
    ensures fewer { vec_len saves.new ≤ vec_len saves.old }
    ensures room { vec_capacity saves.new ≡ vec_capacity saves.old }
{
    saves.retain(|save| !is_save_of(name, save));
}

/// Puts a savepoint behind the others, where there is room for it.
pub(crate) fn put_last(saves: &mut Vec<Save>, save: Save)
    requires { vec_len saves.old < vec_capacity saves.old }
    ensures { saves.new.items ≡ saves.old.items ++ save ∷ [] }
{
    if let Err(full) = saves.push(save) {
        drop(full);
    }
}
