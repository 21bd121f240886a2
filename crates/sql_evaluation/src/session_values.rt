//! What the session gives: its variables, moments and numbers.
#![tactic(auto, using(crate::proofs::Meanings::answers), unfolding(crate::specs::Seen::world_of))]

ghost use Rattle.std.specs.Prelude.{◌≡◌};
ghost use Rattle.catalog_objects.specs.catalog_rules.Names.{same_name};
ghost use Rattle.val_types.specs.declared.ops.Func0.{Func0};
ghost use Rattle.key_order.specs.where_candidates.session_ctx.log_entries.Variables.{variable_value};
ghost use Rattle.key_order.specs.where_candidates.session_ctx.sql_meaning.Scenes.{needed, next_uuid};
ghost use Rattle.key_order.specs.where_candidates.session_ctx.sql_meaning.Frames.{capped};
ghost use Rattle.key_order.specs.where_candidates.session_ctx.sql_meaning.Values.{session_value, system_value};
ghost use Rattle.exec_state.specs.Stage.{EndsAs, LeadsOn, scene_of};
ghost use Rattle.sql_evaluation.specs.Seen.{Anywhere, is_capped, world_of};

use crate::world::Around;
use exec_state::Stage;
use expr_ops::time_text;
use std::alloc::Global;
use val_types::{Bytes, Duplicate, SqlRefusal, TEXT_TOO_LONG, Value};

/// Whether a value is one of an expression: a text has at most 65,535 bytes.
pub fn is_capped(value: &Value) -> bool
    ensures { result ≡ is_capped value.now }
{
    match value {
        Value::Null | Value::Int(_) => true,
        Value::Text(text) => text.len() <= 65_535,
    }
}

/// A copy of a value as an expression gives it; 1153 for a longer text.
pub fn capped(alloc: Global, value: &Value) -> Result<Value, SqlRefusal>
    ensures { Anywhere result (capped value.now) }
{
    if is_capped(value) {
        Ok(value.duplicate(alloc)?)
    } else {
        Err(SqlRefusal::Sql(TEXT_TOO_LONG))
    }
}

/// NOW()
pub fn now(alloc: Global, around: &Around<'_>) -> Result<Value, SqlRefusal>
    ensures { Anywhere result (session_value (world_of around.now) Func0.Now) }
{
    Ok(Value::Text(time_text(alloc, around.context.stamp())?))
}

/// SYSDATE()
pub fn sys_date(alloc: Global, around: &Around<'_>) -> Result<Value, SqlRefusal>
    ensures { Anywhere result (session_value (world_of around.now) Func0.SysDate) }
{
    Ok(Value::Text(time_text(alloc, around.context.sys())?))
}

/// USER()
pub fn user(alloc: Global, around: &Around<'_>) -> Result<Value, SqlRefusal>
    ensures { Anywhere result (session_value (world_of around.now) Func0.User) }
{
    capped(alloc, &Value::Text(around.context.user().duplicate(alloc)?))
}

/// UNIX_TIMESTAMP()
pub fn unix_timestamp(around: &Around<'_>) -> Result<Value, SqlRefusal>
    ensures { Anywhere result (session_value (world_of around.now) Func0.UnixTimestamp) }
{
    Ok(Value::Int(i64::from(around.context.stamp())))
}

/// CONNECTION_ID()
pub fn connection_id(around: &Around<'_>) -> Result<Value, SqlRefusal>
    ensures { Anywhere result (session_value (world_of around.now) Func0.ConnectionId) }
{
    Ok(Value::Int(i64::from(around.context.connection())))
}

/// LAST_INSERT_ID()
pub fn last_insert_id(around: &Around<'_>) -> Result<Value, SqlRefusal>
    ensures { Anywhere result (session_value (world_of around.now) Func0.LastInsertId) }
{
    Ok(Value::Int(around.context.last_id()))
}

/// ROW_COUNT()
pub fn row_count(around: &Around<'_>) -> Result<Value, SqlRefusal>
    ensures { Anywhere result (session_value (world_of around.now) Func0.RowCount) }
{
    Ok(Value::Int(around.context.row_count()))
}

/// UUID()
pub fn uuid(alloc: Global, around: &Around<'_>, stage: &mut Stage) -> Result<Value, SqlRefusal>
    ensures gives { EndsAs result (scene_of stage.new) (session_value (world_of around.now) Func0.Uuid (scene_of stage.old)) }
    ensures leads { LeadsOn stage.old stage.new }
{
    stage.next_uuid(alloc, around.uuid)
}

/// The value of a user variable, NULL where it was never set.
pub fn user_variable(alloc: Global, around: &Around<'_>, name: &Bytes) -> Result<Value, SqlRefusal>
    ensures { Anywhere result (capped (variable_value (world_of around.now).setting.context.variables name.now)) }
{
    match around.context.user_variable(name) {
        Some(value) => capped(alloc, value),
        None => Ok(Value::Null),
    }
}

fn is_named(name: &Bytes, text: &[u8]) -> bool
    ensures { result ≡ same_name name.now text.now }
{
    name.as_slice() == text
}

/// `@@name`; 1193 where it is none that can be read.
pub fn system_variable(around: &Around<'_>, name: &Bytes) -> Result<Value, SqlRefusal>
    ensures { Anywhere result (needed 1193 (system_value (world_of around.now).setting.context name.now)) }
{
    if is_named(name, b"auto_increment_increment") {
        Ok(Value::Int(i64::from(around.context.increment())))
    } else if is_named(name, b"auto_increment_offset") {
        Ok(Value::Int(i64::from(around.context.offset())))
    } else if is_named(name, b"timestamp") {
        Ok(Value::Int(i64::from(around.context.stamp())))
    } else if is_named(name, b"last_insert_id") {
        Ok(Value::Int(around.context.last_id()))
    } else if is_named(name, b"server_id") {
        Ok(Value::Int(i64::from(around.context.server_id())))
    } else {
        Err(SqlRefusal::Sql(1193))
    }
}
