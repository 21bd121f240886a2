//! The turns of WHILE that are left.
ghost use Rattle.std.specs.Prelude.{◌<◌, OnOk};
ghost use Rattle.sql_statements.specs.sql_meaning.Scenes.{spend_turn};
ghost use Rattle.exec_state.specs.Stage.{EndsAs, LeadsOn, scene_of};

use exec_state::Stage;
use val_types::{SqlError, SqlRefusal};

/// No turn is left.
const TOO_MANY_TURNS: SqlError = 30004;

/// Spends a turn; 30004 where none is left.
#[tactic(auto, using(exec_state::proofs::Leading::stage_stays, crate::proofs::Turning::spending), unfolding(exec_state::specs::Stage::scene_of))]
pub(crate) fn spend_turn(stage: &mut Stage) -> Result<(), SqlRefusal>
    ensures gives { EndsAs result (scene_of stage.new) (spend_turn (scene_of stage.old)) }
    ensures leads { LeadsOn stage.old stage.new }
    ensures falls { OnOk result (stage.new.turns < stage.old.turns) }
{
    if stage.turns == 0 {
        return Err(SqlRefusal::Sql(TOO_MANY_TURNS));
    }
    stage.turns -= 1;
    Ok(())
}
