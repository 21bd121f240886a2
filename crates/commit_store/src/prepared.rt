//! Records that are made before they are written.
ghost use Rattle.std.specs.Prelude.{◌≡◌, ◌^◌, ◌<◌, length, IfOk};
ghost use Rattle.store_model.specs.declared.record.Kind.{Kind};
ghost use Rattle.store_model.specs.Bodies.{IsRecord, body_of};
ghost use Rattle.commit_store.specs.Next.{prepared_of};

use crate::next::{Next, next_of};
use gate_journal::frame;
use std::alloc::Global;
use store_bodies::put_record;
use store_model::Record;
use val_types::{Bytes, List, NoMemory};

/// A record as a journal has it, and what a store's readers give behind it. It needs no store, so that the records of many
/// commits can be made before the first of them.
#[derive(Drop)]
pub struct Prepared {
    pub(crate) ready: Bytes,
    pub(crate) next: Next,
}

impl Prepared {
    /// What a record is made to. It calls no disk.
    pub fn new(alloc: Global, r: &Record) -> Result<Prepared, NoMemory>
        requires form { (kind : Kind) × IsRecord kind r.now }
        requires fits { length (body_of r.now) < 2 ^ 32 }
        ensures { IfOk result (λ p. p ≡ prepared_of r.now) }
    {
        let mut body = List::new(alloc);
        put_record(r, &mut body)?;
        let ready = frame(alloc, body.as_slice())?;
        Ok(Prepared {
            ready,
            next: next_of(r),
        })
    }
}
