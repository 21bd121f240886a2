//! Where a body stands.
ghost use Rattle.std.specs.Prelude.{◌≡◌, IfOk};
ghost use Rattle.std.specs.Option.{option_copied};
ghost use Rattle.sql_locals.specs.Types.{column_type};
ghost use Rattle.sql_statements.specs.sql_meaning.Changing.{fitted};
ghost use Rattle.sql_statements.specs.sql_meaning.Running.{seen_as};
ghost use Rattle.sql_evaluation.specs.Seen.{Anywhere, view_if};
ghost use Rattle.stored_programs.specs.Bodies.{ComesFirst, view_in};

use sharing::Shared;
use sql_evaluation::View;
use sql_locals::{Locals, column_type};
use sql_tree::SqlType;
use std::alloc::{AllocError, Global};
use val_types::{ColType, Duplicate, List, NoMemory, Row, SqlRefusal, TableDef, Value, type_fits};

/// Where a body stands: its locals, and in a trigger NEW and OLD.
#[derive(Drop)]
pub(crate) struct Body {
    pub(crate) locals: Locals,
    pub(crate) new_row: Option<View>,
    pub(crate) old_row: Option<View>,
}

/// A row that a body sees.
pub(crate) fn row_in(row: &Option<View>) -> Option<&View>
    ensures { view_if result ≡ view_in row.now }
{
    match row {
        Some(view) => Some(view),
        None => None,
    }
}

/// A copy of the row that is to be stored, with its definition.
pub(crate) fn given_row(
    alloc: Global,
    definition: &Shared<TableDef>,
    row: Option<&Row>,
) -> Result<Option<View>, NoMemory>
    ensures { IfOk result (λ view. view_in view ≡ seen_as definition.now (option_copied row.entry)) }
{
    match row {
        None => Ok(None),
        Some(row) => {
            let row = Shared::new(alloc, row.duplicate(alloc)?)?;
            Ok(Some(View {
                definition: definition.share()?,
                row,
            }))
        }
    }
}

/// The row that stood before, with its definition, without a copy.
pub(crate) fn old_row(
    definition: &Shared<TableDef>,
    row: Option<&Shared<Row>>,
) -> Result<Option<View>, NoMemory>
    ensures { IfOk result (λ view. view_in view ≡ seen_as definition.now (option_copied row.entry)) }
{
    match row {
        None => Ok(None),
        Some(row) => Ok(Some(View {
            definition: definition.share()?,
            row: row.share()?,
        })),
    }
}

/// A value put where a type is declared: 30002, 1264 or 1406 where it does not fit.
pub(crate) fn fit(kind: ColType, value: Value) -> Result<Value, SqlRefusal>
    ensures { Anywhere result (fitted kind value) }
{
    type_fits(kind, &value)?;
    Ok(value)
}

/// The type that is written so. One past the range of columns, which no program of the catalog has, is want of memory.
pub(crate) fn written_type(kind: SqlType) -> Result<ColType, NoMemory>
    ensures { IfOk result (λ k. k ≡ column_type kind) }
{
    match column_type(kind) {
        Some(kind) => Ok(kind),
        None => Err(AllocError),
    }
}

/// Takes the first of some values out.
pub(crate) fn take_first(values: &mut List<Value>) -> Option<Value>
    ensures { ComesFirst result values.old values.new }
{
    if values.is_empty() {
        return None;
    }
    Some(values.remove(0))
}
