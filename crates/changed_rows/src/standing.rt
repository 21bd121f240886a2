//! The table at a place, as the definitions' actions by its name.
#![tactic(auto, using(crate::proofs::Places::standing))]

ghost use Rattle.std.specs.Prelude.{◌≤◌, IfOk};
ghost use Rattle.sql_evaluation.specs.sql_meaning.Changing.{put_in_place, store_update, take_out};
ghost use Rattle.sql_evaluation.specs.sql_meaning.Scenes.{make};
ghost use Rattle.val_types.specs.declared.change.Change.TheVariants as changes;
ghost use Rattle.sql_evaluation.specs.exec_state.Stage.{EndsAs, LeadsOn, scene_of};
ghost use Rattle.changed_rows.specs.Changed.{StandsAt};

use sharing::Shared;
use sql_evaluation::exec_state::Stage;
use val_types::{Row, SqlRefusal, TableDef, key_cmp};

/// Puts a row in; 1062 where it cannot be put there.
pub(crate) fn put_in(
    stage: &mut Stage,
    at: usize,
    definition: &Shared<TableDef>,
    row: Shared<Row>,
) -> Result<(), SqlRefusal>
    requires stands { StandsAt at definition.now stage.old }
    ensures gives { EndsAs result (scene_of stage.new) (make 1062 (changes.Insert definition.now.name row) (scene_of stage.old)) }
    ensures leads { LeadsOn stage.old stage.new }
{
    let _ = definition;
    stage.insert(at, row)
}

/// Takes a row out; 1032 where it does not stand there.
pub(crate) fn take_out(
    stage: &mut Stage,
    at: usize,
    definition: &Shared<TableDef>,
    row: &Shared<Row>,
) -> Result<(), SqlRefusal>
    requires stands { StandsAt at definition.now stage.old }
    ensures gives { EndsAs result (scene_of stage.new) (take_out definition.now.name row.now (scene_of stage.old)) }
    ensures leads { LeadsOn stage.old stage.new }
{
    let _ = definition;
    stage.take_out(at, row)
}

/// Puts a row in the place of another: 1032 where that does not stand there, 1062 where a key of the new one is that of a
/// third.
fn put_in_place(
    stage: &mut Stage,
    at: usize,
    definition: &Shared<TableDef>,
    old: &Shared<Row>,
    new: Shared<Row>,
) -> Result<(), SqlRefusal>
    requires stands { StandsAt at definition.now stage.old }
    ensures gives { EndsAs result (scene_of stage.new) (put_in_place definition.now.name old.now new (scene_of stage.old)) }
    ensures leads { LeadsOn stage.old stage.new }
{
    let _ = definition;
    stage.put_in_place(at, old, new)
}

/// Stores the new row, unless it is as the old one was; gives 1 where it is a change, else 0.
pub(crate) fn store_update(
    stage: &mut Stage,
    at: usize,
    definition: &Shared<TableDef>,
    old: &Shared<Row>,
    new: &Shared<Row>,
) -> Result<u64, SqlRefusal>
    requires stands { StandsAt at definition.now stage.old }
    ensures gives { EndsAs result (scene_of stage.new) (store_update definition.now old.now new.now (scene_of stage.old)) }
    ensures one { IfOk result (λ count. count ≤ 1) }
    ensures leads { LeadsOn stage.old stage.new }
{
    if key_cmp(new.get(), old.get()).is_eq() {
        return Ok(0);
    }
    put_in_place(stage, at, definition, old, new.share()?)?;
    Ok(1)
}
