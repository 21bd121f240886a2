//! The state that evaluating and changing hands on.
ghost use Rattle.std.specs.Prelude.{◌≡◌};
ghost use Rattle.sql_meaning.specs.Scenes.{done, draw, next_uuid};
ghost use Rattle.exec_state.specs.Stage.{EndsAs, LeadsOn, scene_of};

use auto_inc::Counters;
use dml_rows::row_store::Tables;
use expr_ops::{rand_step, uuid_text};
use std::alloc::Global;
use undo_log::Undo;
use val_types::{SqlRefusal, Value};

/// The tables with the changes that can be taken back, the AUTO_INCREMENT counters, the seeds of RAND(), the
/// turns of WHILE that are left, and how many UUIDs were made.
#[derive(Drop)]
pub struct Stage {
    pub tables: Tables,
    pub undo: Undo,
    pub counters: Counters,
    pub seeds: (u64, u64),
    pub turns: u32,
    pub uuids: u128,
}

impl Stage {
    /// Sets both seeds of RAND(), and gives the first.
    pub fn draw(&mut self) -> u64
        ensures gives { draw (scene_of self.old) ≡ done result (scene_of self.new) }
        ensures leads { LeadsOn self.old self.new }
    {
        self.seeds = rand_step(self.seeds.0, self.seeds.1);
        self.seeds.0
    }

    /// The UUID that follows those of the command, which count on from a number. The count of the definitions has no
    /// bound, and a stage tells none: past 2^128, which nothing reaches, this is want of memory.
    pub fn next_uuid(&mut self, alloc: Global, first: u128) -> Result<Value, SqlRefusal>
        ensures gives { EndsAs result (scene_of self.new) (next_uuid first (scene_of self.old)) }
        ensures leads { LeadsOn self.old self.new }
    {
        let Some(count) = self.uuids.checked_add(1) else {
            return Err(SqlRefusal::NoMemory);
        };
        let text = uuid_text(alloc, first.wrapping_add(self.uuids))?;
        self.uuids = count;
        Ok(Value::Text(text))
    }
}
