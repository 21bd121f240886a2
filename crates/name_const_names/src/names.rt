//! Names and the numbers of LIMITs, with locals closed in.
ghost use Rattle.std.specs.Prelude.{◌≡◌, IfOk};
ghost use Rattle.name_const_length.specs.sql_meaning.Frames.{number_or_none};
ghost use Rattle.name_const_length.specs.sql_reach.Closing.{closed_count, closed_name, number_if};
ghost use Rattle.sql_tree.specs.View.{view_tree};
ghost use Rattle.sql_tree.specs.declared.expressions.Count.TheVariants as counts;
ghost use Rattle.name_const_length.specs.Closed.{closed_count_if, closed_limit};

use sql_locals::Locals;
use sql_tree::{Count, Expr, Limit};
use std::alloc::Global;
use val_types::{Bytes, Duplicate, NoMemory, Value};

/// A name, or NAME_CONST where a local hides it.
pub fn close_name(alloc: Global, locals: &Locals, name: &Bytes) -> Result<Expr, NoMemory>
    ensures { IfOk result (λ copy. view_tree copy ≡ closed_name locals.now name.now) }
{
    match locals.find(name) {
        None => Ok(Expr::Name(name.duplicate(alloc)?)),
        Some(local) => {
            let value = local.value.duplicate(alloc)?;
            Ok(Expr::NameConst(name.duplicate(alloc)?, value))
        }
    }
}

/// The name of a LIMIT as the number of the local that it means, where that is a number from 0.
fn count_by(alloc: Global, name: &Bytes, value: &Value) -> Result<Count, NoMemory>
    ensures { IfOk result (λ count. count ≡ number_if (counts.Name name.now) (number_or_none value.now)) }
{
    match value {
        Value::Int(number) if *number >= 0 => Ok(Count::Number(*number as u64)),
        _ => Ok(Count::Name(name.duplicate(alloc)?)),
    }
}

/// The number of a LIMIT.
fn close_count(alloc: Global, locals: &Locals, count: &Count) -> Result<Count, NoMemory>
    ensures { IfOk result (λ copy. copy ≡ closed_count locals.now count.now) }
{
    match count {
        Count::Number(number) => Ok(Count::Number(*number)),
        Count::Name(name) => match locals.find(name) {
            None => Ok(Count::Name(name.duplicate(alloc)?)),
            Some(local) => count_by(alloc, name, &local.value),
        },
    }
}

/// LIMIT of UPDATE and DELETE, and OFFSET.
pub fn close_count_if(
    alloc: Global,
    locals: &Locals,
    count: &Option<Count>,
) -> Result<Option<Count>, NoMemory>
    ensures { IfOk result (λ copy. copy ≡ closed_count_if locals.now count.now) }
{
    match count {
        None => Ok(None),
        Some(count) => Ok(Some(close_count(alloc, locals, count)?)),
    }
}

/// LIMIT of SELECT.
pub fn close_limit(
    alloc: Global,
    locals: &Locals,
    limit: &Option<Limit>,
) -> Result<Option<Limit>, NoMemory>
    ensures { IfOk result (λ copy. copy ≡ closed_limit locals.now limit.now) }
{
    match limit {
        None => Ok(None),
        Some(limit) => {
            let count = close_count(alloc, locals, &limit.count)?;
            let offset = close_count_if(alloc, locals, &limit.offset)?;
            Ok(Some(Limit { count, offset }))
        }
    }
}
