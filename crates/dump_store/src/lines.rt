//! The line of an object, that of a row, and the rows of an object.
ghost use Rattle.std.specs.Prelude.{◌≡◌, Ok, IfOk};
ghost use Rattle.catalog_show_create.specs.catalog_objects.Keys.{seen};
ghost use Rattle.catalog_show_create.specs.Stated.{statement_of};
ghost use Rattle.sql_print.specs.StatementSpelling.{spelling};
ghost use Rattle.table_rules.specs.Stored.{rows_of};
ghost use Rattle.dump_store.specs.Lines.{create_line, row_line, rows_behind};

use catalog_show_create::catalog_objects::Object;
use catalog_show_create::object_statement;
use row_store::Tables;
use sharing::Shared;
use sql_print::print;
use std::alloc::Global;
use val_types::{Boxed, Bytes, List, NoMemory, Row, row_text};

/// What was made, on the heap.
fn boxed<T: Drop>(alloc: Global, made: Result<T, NoMemory>) -> Result<Boxed<T>, NoMemory>
    ensures { IfOk result (λ b. made ≡ Ok b) }
{
    Boxed::new(alloc, made?)
}

/// The canonical text of the CREATE statement of an object.
fn create_text(alloc: Global, object: &Object) -> Result<Bytes, NoMemory>
    ensures { IfOk result (λ text. text ≡ spelling (statement_of (seen object.now))) }
{
    let statement = boxed(alloc, object_statement(alloc, object))?;
    print(alloc, statement.get())
}

/// The line of an object.
pub(crate) fn create_line(alloc: Global, object: &Object) -> Result<Bytes, NoMemory>
    ensures { IfOk result (λ line. line ≡ create_line (seen object.now)) }
{
    let text = create_text(alloc, object)?;
    let mut line = List::from_slice(alloc, b"create ")?;
    line.append(text)?;
    line.push(b'\n')?;
    Ok(line)
}

/// The line of a row.
pub(crate) fn row_line(alloc: Global, row: &Row) -> Result<Bytes, NoMemory>
    ensures { IfOk result (λ line. line ≡ row_line row.now) }
{
    let text = row_text(alloc, row)?;
    let mut line = List::from_slice(alloc, b"row ")?;
    line.append(text)?;
    line.push(b'\n')?;
    Ok(line)
}

/// The rows of the table of a name, in the order of their keys; none where there is no such table.
fn rows_named(alloc: Global, tables: &Tables, name: &Bytes) -> Result<List<Shared<Row>>, NoMemory>
    ensures { IfOk result (λ rows. rows ≡ rows_of name.now tables.now.tables) }
{
    match tables.place(name) {
        Some(at) => tables.rows(at),
        None => Ok(List::new(alloc)),
    }
}

/// The rows of an object, which are shared with its table.
pub(crate) fn rows_behind(
    alloc: Global,
    tables: &Tables,
    object: &Object,
) -> Result<List<Shared<Row>>, NoMemory>
    ensures { IfOk result (λ rows. rows ≡ rows_behind tables.now.tables (seen object.now)) }
{
    match object {
        Object::Table(definition) => rows_named(alloc, tables, &definition.get().name),
        Object::Function(_) => Ok(List::new(alloc)),
        Object::Procedure(_) => Ok(List::new(alloc)),
        Object::Trigger(_) => Ok(List::new(alloc)),
    }
}
