//! Where logs end, with room for more.
ghost use Rattle.std.specs.Prelude.{◌≡◌, ◌+◌, ◌<◌, ◌≤◌, ◌++◌, ◌∷◌, [], OnOk, OnErr};
ghost use Rattle.commit_store.specs.Next.{with_last};

use std::marker::Model;
use val_types::{List, NoMemory};

/// Where each log of a source ends, from the first on. Where there is room, an end is put behind the others without memory.
#[derive(Drop)]
pub(crate) struct Ends {
    places: Vec<u32>,
}

impl Model for Ends {
    ghost use Rattle.std.specs.Prelude.{◌-◌, vec_capacity, vec_len};
    ghost use Rattle.commit_store.specs.Reserved.{LogEnds};

    ghost Value = { LogEnds };

    ghost view = { λ e. record { list = e.places.items; room = vec_capacity e.places - vec_len e.places } };
}

impl Ends {
    /// Logs that end at these places.
    pub(crate) fn of_places(places: List<u32>) -> Ends
        ensures { result.list ≡ places }
    {
        Ends {
            places: places.into_vec(),
        }
    }

    /// The places.
    pub(crate) fn as_slice(&self) -> &[u32]
        ensures { result.now ≡ self.now.list }
    {
        self.places.as_slice()
    }

    /// Makes room for so many more.
    pub(crate) fn make_room(&mut self, more: usize) -> Result<(), NoMemory>
        ensures made { OnOk result (more ≤ self.new.room) }
        ensures list { self.new.list ≡ self.old.list }
        ensures grown { self.old.room ≤ self.new.room }
        ensures err { OnErr result (self.new ≡ self.old) }
    {
        self.places.reserve(more)
    }

    /// Puts the end of the last log elsewhere.
    #[tactic(auto, using(crate::proofs::Setting::set_last))]
    pub(crate) fn set_last(&mut self, pos: u32)
        ensures list { self.new.list ≡ with_last pos self.old.list }
        ensures room { self.new.room ≡ self.old.room }
    {
        let count = self.places.len();
        if count > 0 {
            self.places[count - 1] = pos;
        }
    }

    /// Puts the end of a log that begins behind the others.
    pub(crate) fn put(&mut self, pos: u32)
        requires { 0 < self.old.room }
        ensures list { self.new.list ≡ self.old.list ++ pos ∷ [] }
        ensures room { self.new.room + 1 ≡ self.old.room }
    {
        self.places.push_reserved(pos);
    }
}
