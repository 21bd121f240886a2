//! What a WHERE has outside of its table.
ghost use Rattle.std.specs.Prelude.{◌≡◌};
ghost use Rattle.key_order.specs.where_candidates.where_keys.Sides.{row_if};
ghost use Rattle.sql_evaluation.specs.Seen.{IsOutside, view_if};

use crate::world::{Around, View};
use key_order::where_candidates::where_keys::{Outside, RowOf};

/// A row with its definition, if there is one.
fn row_of(view: Option<&View>) -> Option<RowOf<'_>>
    ensures { row_if result ≡ view_if view.entry }
{
    match view {
        Some(view) => Some(RowOf {
            definition: view.definition.get(),
            row: view.row.get(),
        }),
        None => None,
    }
}

/// What a WHERE has outside of its table but rows in view.
#[tactic(auto, using(crate::proofs::Steps::outside_so))]
pub fn outside_of<'a>(around: &Around<'a>) -> Outside<'a>
    ensures { IsOutside around.now result }
{
    Outside {
        locals: around.locals,
        context: around.context,
        new_row: row_of(around.new_row),
        old_row: row_of(around.old_row),
    }
}
