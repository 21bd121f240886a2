//! Changes taken back where an error came.
ghost use Rattle.std.specs.Prelude.{◌≡◌, true, drop, length, OnErr, OnOk};
ghost use Rattle.table_rules.specs.Stores.{can_take_back};
ghost use Rattle.exec_state.specs.Stage.{LeadsOn};
ghost use Rattle.exec_state.specs.declared.stage.Stage.{Stage as Staged};
ghost use Rattle.stage_undo.specs.Back.{StandsBack};

use exec_state::Stage;
use exec_state::dml_rows::take_back_to;
use val_types::SqlRefusal;

/// Takes back the changes that were made since a mark.
#[tactic(auto, using(crate::proofs::TakenBack::taking_back))]
fn take_back(stage: &mut Stage, mark: u64)
    requires { can_take_back stage.old.tables (drop mark stage.old.undo) ≡ true }
    ensures back { (start : Staged) → LeadsOn start stage.old → mark ≡ length start.undo → StandsBack start stage.old stage.new }
    ensures leads { (start : Staged) → LeadsOn start stage.old → mark ≡ length start.undo → LeadsOn start stage.new }
{
    take_back_to(&mut stage.tables, &mut stage.undo, mark);
}

/// Takes back what was done on a stage since a mark, where that came to an error; else the stage stays as it is.
pub fn take_back_at_error<T>(stage: &mut Stage, mark: u64, done: &Result<T, SqlRefusal>)
    requires { can_take_back stage.old.tables (drop mark stage.old.undo) ≡ true }
    ensures stays { OnOk done.now (stage.new ≡ stage.old) }
    ensures back { (start : Staged) → LeadsOn start stage.old → mark ≡ length start.undo → OnErr done.now (StandsBack start stage.old stage.new) }
    ensures leads { (start : Staged) → LeadsOn start stage.old → mark ≡ length start.undo → LeadsOn start stage.new }
{
    match done {
        Ok(_) => {}
        Err(_) => take_back(stage, mark),
    }
}
