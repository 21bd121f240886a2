//! Bounds of a store's numbers, which are those of their types.
ghost use Rattle.std.specs.Prelude.{◌^◌, ◌<◌};

use commit_store::Store;

/// The generation is a number of 64 bits.
pub(crate) fn generation_fits(store: &Store)
    ensures { store.now.generation < 2 ^ 64 }
{
    let _generation = store.generation();
}

/// A replica's place has numbers of 32 bits.
pub(crate) fn place_fits(store: &Store)
    ensures log { store.now.log < 2 ^ 32 }
    ensures pos { store.now.pos < 2 ^ 32 }
{
    let _log = store.log();
    let _pos = store.pos();
}
