//! CREATE TABLE, at the end of a text.
ghost use Rattle.std.specs.Prelude.{◌≡◌, ◌++◌, map, Some, [], ◌∷◌, IfOk, OnOk};
ghost use Rattle.sql_print.specs.Names.{commas};
ghost use Rattle.sql_print.specs.StatementSpelling.{nullable_text, preset_text, auto_text, column_text, primary_parts, unique_text, table_parts, table_text};

use crate::expressions::write_value;
use crate::names::{write_name, write_names, write_prefixed, write_type};
use sql_tree::{Column, CreateTable, UniqueKey};
use std::alloc::Global;
use val_types::{Bytes, List, NoMemory, Value};

fn write_nullable(out: &mut Bytes, nullable: bool) -> Result<(), NoMemory>
    ensures { OnOk result (out.new ≡ out.old ++ nullable_text nullable) }
{
    if nullable {
        out.extend_from_slice(b" NULL")
    } else {
        out.extend_from_slice(b" NOT NULL")
    }
}

fn write_preset(alloc: Global, out: &mut Bytes, preset: &Option<Value>) -> Result<(), NoMemory>
    ensures { OnOk result (out.new ≡ out.old ++ preset_text preset.now) }
{
    match preset {
        None => Ok(()),
        Some(value) => {
            out.extend_from_slice(b" DEFAULT ")?;
            write_value(alloc, out, value)
        }
    }
}

fn write_auto(out: &mut Bytes, auto_increment: bool) -> Result<(), NoMemory>
    ensures { OnOk result (out.new ≡ out.old ++ auto_text auto_increment) }
{
    if auto_increment {
        out.extend_from_slice(b" AUTO_INCREMENT")
    } else {
        Ok(())
    }
}

fn column_text(alloc: Global, column: &Column) -> Result<Bytes, NoMemory>
    ensures { IfOk result (λ text. text ≡ column_text column.now) }
{
    let mut out = List::new(alloc);
    write_name(&mut out, &column.name)?;
    out.extend_from_slice(b" ")?;
    write_type(alloc, &mut out, column.kind)?;
    write_nullable(&mut out, column.nullable)?;
    write_preset(alloc, &mut out, &column.preset)?;
    write_auto(&mut out, column.auto_increment)?;
    Ok(out)
}

fn primary_text(alloc: Global, names: &List<Bytes>) -> Result<Bytes, NoMemory>
    ensures { IfOk result (λ text. text ∷ [] ≡ primary_parts (Some names.now)) }
{
    let mut out = List::from_slice(alloc, b"PRIMARY KEY (")?;
    write_names(&mut out, names)?;
    out.extend_from_slice(b")")?;
    Ok(out)
}

fn unique_text(alloc: Global, key: &UniqueKey) -> Result<Bytes, NoMemory>
    ensures { IfOk result (λ text. text ≡ unique_text key.now) }
{
    let mut out = List::new(alloc);
    write_prefixed(&mut out, b"UNIQUE KEY ", &key.name)?;
    out.extend_from_slice(b" (")?;
    write_names(&mut out, &key.columns)?;
    out.extend_from_slice(b")")?;
    Ok(out)
}

fn column_parts(alloc: Global, columns: &[Column]) -> Result<List<Bytes>, NoMemory>
    ensures { IfOk result (λ parts. parts ≡ map column_text columns.now) }
{
    let mut parts = List::new(alloc);
    for column in columns {
        parts.push(column_text(alloc, column)?)?;
    }
    Ok(parts)
}

fn unique_parts(alloc: Global, keys: &[UniqueKey]) -> Result<List<Bytes>, NoMemory>
    ensures { IfOk result (λ parts. parts ≡ map unique_text keys.now) }
{
    let mut parts = List::new(alloc);
    for key in keys {
        parts.push(unique_text(alloc, key)?)?;
    }
    Ok(parts)
}

/// The columns and the keys of a table, each as a text.
fn table_parts(alloc: Global, table: &CreateTable) -> Result<List<Bytes>, NoMemory>
    ensures { IfOk result (λ parts. parts ≡ table_parts table.now) }
{
    let mut parts = column_parts(alloc, table.columns.as_slice())?;
    if let Some(names) = &table.primary {
        parts.push(primary_text(alloc, names)?)?;
    }
    parts.append(unique_parts(alloc, table.uniques.as_slice())?)?;
    Ok(parts)
}

/// Texts with a comma and a space between two.
fn write_commas(out: &mut Bytes, parts: &List<Bytes>) -> Result<(), NoMemory>
    ensures { OnOk result (out.new ≡ out.old ++ commas parts.now) }
{
    let mut first = true;
    for part in parts.as_slice() {
        if !first {
            out.extend_from_slice(b", ")?;
        }
        out.extend_from_slice(part.as_slice())?;
        first = false;
    }
    Ok(())
}

fn write_parts(alloc: Global, out: &mut Bytes, table: &CreateTable) -> Result<(), NoMemory>
    ensures { OnOk result (out.new ≡ out.old ++ commas (table_parts table.now)) }
{
    let parts = table_parts(alloc, table)?;
    write_commas(out, &parts)
}

/// CREATE TABLE
pub fn write_table(alloc: Global, out: &mut Bytes, table: &CreateTable) -> Result<(), NoMemory>
    ensures { OnOk result (out.new ≡ out.old ++ table_text table.now) }
{
    write_prefixed(out, b"CREATE TABLE ", &table.name)?;
    out.extend_from_slice(b" (")?;
    write_parts(alloc, out, table)?;
    out.extend_from_slice(b")")
}
