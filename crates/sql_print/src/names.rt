//! Names, numbers, types and LIMITs, at the end of a text.
ghost use Rattle.std.specs.Prelude.{◌≡◌, ◌++◌, codes, OnOk};
ghost use Rattle.std.specs.Fmt.{decimal};
ghost use Rattle.sql_print.specs.Names.{doubled, quoted_name, names_of, bare_name, type_of, count_of, count_if, offset_if, limit_if};

use crate::words::is_bare;
use sql_tree::{Count, Limit, SqlType};
use std::alloc::Global;
use val_types::{Bytes, List, NoMemory};

/// Bytes with each backquote doubled.
fn write_doubled(out: &mut Bytes, bytes: &[u8]) -> Result<(), NoMemory>
    ensures { OnOk result (out.new ≡ out.old ++ doubled bytes.now) }
{
    for byte in bytes {
        if *byte == b'`' {
            out.push(b'`')?;
        }
        out.push(*byte)?;
    }
    Ok(())
}

/// A name in backquotes.
pub fn write_name(out: &mut Bytes, name: &Bytes) -> Result<(), NoMemory>
    ensures { OnOk result (out.new ≡ out.old ++ quoted_name name.now) }
{
    out.push(b'`')?;
    write_doubled(out, name.as_slice())?;
    out.push(b'`')
}

/// A name in backquotes behind other bytes.
pub fn write_prefixed(out: &mut Bytes, prefix: &[u8], name: &Bytes) -> Result<(), NoMemory>
    ensures { OnOk result (out.new ≡ out.old ++ (prefix.now ++ quoted_name name.now)) }
{
    out.extend_from_slice(prefix)?;
    write_name(out, name)
}

/// Names in backquotes, with a comma and a space between two.
pub fn write_names(out: &mut Bytes, names: &List<Bytes>) -> Result<(), NoMemory>
    ensures { OnOk result (out.new ≡ out.old ++ names_of names.now) }
{
    let mut first = true;
    for name in names.as_slice() {
        if !first {
            out.extend_from_slice(b", ")?;
        }
        write_name(out, name)?;
        first = false;
    }
    Ok(())
}

/// A system variable's name, in backquotes only where it needs them.
fn write_bare_name(out: &mut Bytes, name: &Bytes) -> Result<(), NoMemory>
    ensures { OnOk result (out.new ≡ out.old ++ bare_name name.now) }
{
    if is_bare(name.as_slice()) {
        out.extend_from_slice(name.as_slice())
    } else {
        write_name(out, name)
    }
}

/// `@@name`
pub fn write_system_name(out: &mut Bytes, name: &Bytes) -> Result<(), NoMemory>
    ensures { OnOk result (out.new ≡ out.old ++ (codes "@@" ++ bare_name name.now)) }
{
    out.extend_from_slice(b"@@")?;
    write_bare_name(out, name)
}

/// A number in decimal.
fn write_number(alloc: Global, out: &mut Bytes, number: u64) -> Result<(), NoMemory>
    ensures { OnOk result (out.new ≡ out.old ++ decimal number) }
{
    out.extend_from_slice(number.to_string(alloc)?.as_bytes())
}

pub fn write_type(alloc: Global, out: &mut Bytes, kind: SqlType) -> Result<(), NoMemory>
    ensures { OnOk result (out.new ≡ out.old ++ type_of kind) }
{
    match kind {
        SqlType::Int => out.extend_from_slice(b"INT"),
        SqlType::BigInt => out.extend_from_slice(b"BIGINT"),
        SqlType::Varchar(length) => {
            out.extend_from_slice(b"VARCHAR(")?;
            write_number(alloc, out, length)?;
            out.push(b')')
        }
    }
}

fn write_count(alloc: Global, out: &mut Bytes, count: &Count) -> Result<(), NoMemory>
    ensures { OnOk result (out.new ≡ out.old ++ count_of count.now) }
{
    match count {
        Count::Number(number) => write_number(alloc, out, *number),
        Count::Name(name) => write_name(out, name),
    }
}

/// LIMIT of UPDATE and DELETE.
pub fn write_count_if(alloc: Global, out: &mut Bytes, count: &Option<Count>) -> Result<(), NoMemory>
    ensures { OnOk result (out.new ≡ out.old ++ count_if count.now) }
{
    match count {
        None => Ok(()),
        Some(count) => {
            out.extend_from_slice(b" LIMIT ")?;
            write_count(alloc, out, count)
        }
    }
}

fn write_offset_if(alloc: Global, out: &mut Bytes, count: &Option<Count>) -> Result<(), NoMemory>
    ensures { OnOk result (out.new ≡ out.old ++ offset_if count.now) }
{
    match count {
        None => Ok(()),
        Some(count) => {
            out.extend_from_slice(b" OFFSET ")?;
            write_count(alloc, out, count)
        }
    }
}

/// LIMIT of SELECT.
pub fn write_limit_if(alloc: Global, out: &mut Bytes, limit: &Option<Limit>) -> Result<(), NoMemory>
    ensures { OnOk result (out.new ≡ out.old ++ limit_if limit.now) }
{
    match limit {
        None => Ok(()),
        Some(limit) => {
            out.extend_from_slice(b" LIMIT ")?;
            write_count(alloc, out, &limit.count)?;
            write_offset_if(alloc, out, &limit.offset)
        }
    }
}
