//! AUTO_INCREMENT counters, as the definitions' actions on a scene.
ghost use Rattle.std.specs.Prelude.{◌≡◌};
ghost use Rattle.sql_meaning.specs.Scenes.{counter_now, done, raise_counter};
ghost use Rattle.exec_state.specs.Stage.{LeadsOn, scene_of};

use crate::stage::Stage;
use val_types::Bytes;

impl Stage {
    #[tactic(auto, using(crate::proofs::Raised::counted_there), unfolding(crate::specs::Stage::scene_of))]
    /// The counter of a table, 1 where it has none.
    pub fn counter(&self, table: &Bytes) -> u64
        ensures { counter_now table.now (scene_of self.now) ≡ done result (scene_of self.now) }
    {
        match self.counters.place(table) {
            Some(at) => self.counters.value_at(at),
            None => 1,
        }
    }

    /// Moves the counter of a table behind a value, never back.
    #[tactic(auto, using(crate::proofs::Raised::raised_so, crate::proofs::Raised::none_lower, crate::proofs::Leading::stage_raises), unfolding(crate::specs::Stage::scene_of))]
    pub fn raise_counter(&mut self, table: &Bytes, value: i64)
        ensures gives { raise_counter table.now value (scene_of self.old) ≡ done tt (scene_of self.new) }
        ensures leads { LeadsOn self.old self.new }
    {
        self.counters.raise(table, value);
    }
}
