//! Expressions and SELECTs, at the end of a text.
ghost use Rattle.std.specs.Prelude.{◌≡◌, ◌++◌, codes, OnOk};
ghost use Rattle.val_types.specs.Text.{text_of};
ghost use Rattle.sql_tree.specs.BuiltIns.{on_none, on_one, on_two, on_three, on_many};
ghost use Rattle.sql_tree.specs.View.{view_tree, view_trees, view_arms, view_part, view_query, view_selected, view_aggregates, view_origin, view_orders};
ghost use Rattle.val_types.specs.declared.value.Value.TheVariants.{Text};
ghost use Rattle.sql_print.specs.Names.{quoted_name};
ghost use Rattle.sql_print.specs.Spelling.{operator_of, before_operand, behind_operand, in_of, aggregate_of, function_of, direction_of, is_choice, tree_text, factor_text, trees_text, arms_text, else_text, where_text, query_text, selected_text, aggregates_text, origin_text, orders_text};

use crate::names::{write_limit_if, write_name, write_prefixed, write_system_name};
use sql_tree::{Aggregate, Arm, Expr, FromClause, OrderItem, Select, Selection, function_name};
use std::alloc::Global;
use val_types::{
    Agg, BinOp, Boxed, Bytes, Duplicate, Func, Func0, Func1, Func2, Func3, FuncN, List, NoMemory,
    UnOp, Value, value_text,
};

fn write_operator(out: &mut Bytes, op: BinOp) -> Result<(), NoMemory>
    ensures { OnOk result (out.new ≡ out.old ++ operator_of op) }
{
    match op {
        BinOp::Or => out.extend_from_slice(b" OR "),
        BinOp::And => out.extend_from_slice(b" AND "),
        BinOp::Equal => out.extend_from_slice(b" = "),
        BinOp::NullSafeEqual => out.extend_from_slice(b" <=> "),
        BinOp::NotEqual => out.extend_from_slice(b" <> "),
        BinOp::Less => out.extend_from_slice(b" < "),
        BinOp::LessOrEqual => out.extend_from_slice(b" <= "),
        BinOp::Greater => out.extend_from_slice(b" > "),
        BinOp::GreaterOrEqual => out.extend_from_slice(b" >= "),
        BinOp::Add => out.extend_from_slice(b" + "),
        BinOp::Subtract => out.extend_from_slice(b" - "),
        BinOp::Multiply => out.extend_from_slice(b" * "),
        BinOp::Divide => out.extend_from_slice(b" DIV "),
        BinOp::Modulo => out.extend_from_slice(b" MOD "),
    }
}

fn write_before_operand(out: &mut Bytes, op: UnOp) -> Result<(), NoMemory>
    ensures { OnOk result (out.new ≡ out.old ++ before_operand op) }
{
    match op {
        UnOp::Negate => out.extend_from_slice(b"(- "),
        UnOp::Not => out.extend_from_slice(b"(NOT "),
        UnOp::IsNull | UnOp::IsNotNull => out.extend_from_slice(b"("),
    }
}

fn write_behind_operand(out: &mut Bytes, op: UnOp) -> Result<(), NoMemory>
    ensures { OnOk result (out.new ≡ out.old ++ behind_operand op) }
{
    match op {
        UnOp::Negate | UnOp::Not => out.extend_from_slice(b")"),
        UnOp::IsNull => out.extend_from_slice(b" IS NULL)"),
        UnOp::IsNotNull => out.extend_from_slice(b" IS NOT NULL)"),
    }
}

fn write_in(out: &mut Bytes, negated: bool) -> Result<(), NoMemory>
    ensures { OnOk result (out.new ≡ out.old ++ in_of negated) }
{
    if negated {
        out.extend_from_slice(b" NOT IN (")
    } else {
        out.extend_from_slice(b" IN (")
    }
}

fn write_aggregate_name(out: &mut Bytes, function: Agg) -> Result<(), NoMemory>
    ensures { OnOk result (out.new ≡ out.old ++ aggregate_of function) }
{
    match function {
        Agg::Count => out.extend_from_slice(b"COUNT("),
        Agg::Sum => out.extend_from_slice(b"SUM("),
        Agg::Min => out.extend_from_slice(b"MIN("),
        Agg::Max => out.extend_from_slice(b"MAX("),
    }
}

/// The name of a built-in function and the parenthesis behind it.
fn write_function(out: &mut Bytes, function: Func) -> Result<(), NoMemory>
    ensures { OnOk result (out.new ≡ out.old ++ (function_of function ++ codes "(")) }
{
    out.extend_from_slice(function_name(function))?;
    out.extend_from_slice(b"(")
}

/// A built-in function without arguments.
fn write_on_none(out: &mut Bytes, function: Func0) -> Result<(), NoMemory>
    ensures { OnOk result (out.new ≡ out.old ++ tree_text (on_none function)) }
{
    write_function(out, Func::Zero(function))?;
    out.extend_from_slice(b")")
}

fn write_direction(out: &mut Bytes, descending: bool) -> Result<(), NoMemory>
    ensures { OnOk result (out.new ≡ out.old ++ direction_of descending) }
{
    if descending {
        out.extend_from_slice(b" DESC")
    } else {
        Ok(())
    }
}

/// A value as a literal.
pub fn write_value(alloc: Global, out: &mut Bytes, value: &Value) -> Result<(), NoMemory>
    ensures { OnOk result (out.new ≡ out.old ++ text_of value.now) }
{
    out.append(value_text(alloc, value)?)
}

/// A text as a literal.
fn write_text(alloc: Global, out: &mut Bytes, text: &Bytes) -> Result<(), NoMemory>
    ensures { OnOk result (out.new ≡ out.old ++ text_of (Text text.now)) }
{
    let value = Value::Text(text.duplicate(alloc)?);
    write_value(alloc, out, &value)
}

fn is_choice(expr: &Expr) -> bool
    ensures { result ≡ is_choice (view_tree expr.now) }
{
    matches!(expr, Expr::Case { .. })
}

/// `table.column`
fn write_column(out: &mut Bytes, table: &Bytes, column: &Bytes) -> Result<(), NoMemory>
    ensures { OnOk result (out.new ≡ out.old ++ (quoted_name table.now ++ codes "." ++ quoted_name column.now)) }
{
    write_name(out, table)?;
    write_prefixed(out, b".", column)
}

/// `VALUES(column)`
fn write_values(out: &mut Bytes, column: &Bytes) -> Result<(), NoMemory>
    ensures { OnOk result (out.new ≡ out.old ++ (codes "VALUES(" ++ quoted_name column.now ++ codes ")")) }
{
    write_prefixed(out, b"VALUES(", column)?;
    out.extend_from_slice(b")")
}

/// `NAME_CONST('name', value)`
fn write_name_const(
    alloc: Global,
    out: &mut Bytes,
    name: &Bytes,
    value: &Value,
) -> Result<(), NoMemory>
    ensures { OnOk result (out.new ≡ out.old ++ (codes "NAME_CONST(" ++ text_of (Text name.now) ++ codes ", " ++ text_of value.now ++ codes ")")) }
{
    out.extend_from_slice(b"NAME_CONST(")?;
    write_text(alloc, out, name)?;
    out.extend_from_slice(b", ")?;
    write_value(alloc, out, value)?;
    out.extend_from_slice(b")")
}

/// An expression.
#[cycle(write)]
pub fn write_expr(alloc: Global, out: &mut Bytes, expr: &Expr) -> Result<(), NoMemory>
    ensures { OnOk result (out.new ≡ out.old ++ tree_text (view_tree expr.now)) }
{
    match expr {
        Expr::Literal(value) => write_value(alloc, out, value),
        Expr::Name(name) => write_name(out, name),
        Expr::Column(table, column) => write_column(out, table, column),
        Expr::NewColumn(column) => write_prefixed(out, b"NEW.", column),
        Expr::OldColumn(column) => write_prefixed(out, b"OLD.", column),
        Expr::UserVariable(name) => write_prefixed(out, b"@", name),
        Expr::SystemVariable(name) => write_system_name(out, name),
        Expr::Unary(op, a) => write_unary(alloc, out, *op, a),
        Expr::Binary(op, a, b) => write_binary(alloc, out, *op, a, b),
        Expr::In {
            negated,
            left,
            items,
        } => write_membership(alloc, out, *negated, left, items),
        Expr::Case { arms, otherwise } => write_case(alloc, out, arms, otherwise),
        Expr::Subquery(select) => write_query(alloc, out, b"(", select),
        Expr::Exists(select) => write_query(alloc, out, b"EXISTS (", select),
        Expr::Call { name, arguments } => {
            write_name(out, name)?;
            write_arguments(alloc, out, arguments)
        }
        Expr::Values(column) => write_values(out, column),
        Expr::NameConst(name, value) => write_name_const(alloc, out, name, value),
        Expr::FloorRand(a) => {
            out.extend_from_slice(b"FLOOR(RAND() * ")?;
            write_factor(alloc, out, a)?;
            out.extend_from_slice(b")")
        }
        Expr::Func0(function) => write_on_none(out, *function),
        Expr::Func1(function, a) => write_on_one(alloc, out, *function, a),
        Expr::Func2(function, a, b) => write_on_two(alloc, out, *function, a, b),
        Expr::Func3(function, a, b, c) => write_on_three(alloc, out, *function, a, b, c),
        Expr::FuncN(function, arguments) => write_on_many(alloc, out, *function, arguments),
    }
}

#[cycle(write)]
fn write_unary(alloc: Global, out: &mut Bytes, op: UnOp, a: &Boxed<Expr>) -> Result<(), NoMemory>
    ensures { OnOk result (out.new ≡ out.old ++ (before_operand op ++ tree_text (view_tree a.now) ++ behind_operand op)) }
{
    write_before_operand(out, op)?;
    write_expr(alloc, out, a.get())?;
    write_behind_operand(out, op)
}

#[cycle(write)]
fn write_binary(
    alloc: Global,
    out: &mut Bytes,
    op: BinOp,
    a: &Boxed<Expr>,
    b: &Boxed<Expr>,
) -> Result<(), NoMemory>
    ensures { OnOk result (out.new ≡ out.old ++ (codes "(" ++ tree_text (view_tree a.now) ++ operator_of op ++ tree_text (view_tree b.now) ++ codes ")")) }
{
    out.extend_from_slice(b"(")?;
    write_expr(alloc, out, a.get())?;
    write_operator(out, op)?;
    write_expr(alloc, out, b.get())?;
    out.extend_from_slice(b")")
}

/// IN or NOT IN.
#[cycle(write)]
fn write_membership(
    alloc: Global,
    out: &mut Bytes,
    negated: bool,
    left: &Boxed<Expr>,
    items: &List<Expr>,
) -> Result<(), NoMemory>
    ensures { OnOk result (out.new ≡ out.old ++ (codes "(" ++ tree_text (view_tree left.now) ++ in_of negated ++ trees_text (view_trees items.now) ++ codes "))")) }
{
    out.extend_from_slice(b"(")?;
    write_expr(alloc, out, left.get())?;
    write_in(out, negated)?;
    write_exprs(alloc, out, items)?;
    out.extend_from_slice(b"))")
}

#[cycle(write)]
fn write_case(
    alloc: Global,
    out: &mut Bytes,
    arms: &List<Arm>,
    otherwise: &Option<Boxed<Expr>>,
) -> Result<(), NoMemory>
    ensures { OnOk result (out.new ≡ out.old ++ (codes "CASE" ++ arms_text (view_arms arms.now) ++ else_text (view_part otherwise.now) ++ codes " END")) }
{
    out.extend_from_slice(b"CASE")?;
    write_arms(alloc, out, arms)?;
    write_else(alloc, out, otherwise)?;
    out.extend_from_slice(b" END")
}

/// A SELECT in parentheses, from what opens them.
#[cycle(write)]
fn write_query(
    alloc: Global,
    out: &mut Bytes,
    opening: &[u8],
    select: &Boxed<Select>,
) -> Result<(), NoMemory>
    ensures { OnOk result (out.new ≡ out.old ++ (opening.now ++ query_text (view_query select.now) ++ codes ")")) }
{
    out.extend_from_slice(opening)?;
    write_select(alloc, out, select.get())?;
    out.extend_from_slice(b")")
}

/// The arguments of a stored function.
#[cycle(write)]
fn write_arguments(alloc: Global, out: &mut Bytes, arguments: &List<Expr>) -> Result<(), NoMemory>
    ensures { OnOk result (out.new ≡ out.old ++ (codes "(" ++ trees_text (view_trees arguments.now) ++ codes ")")) }
{
    out.extend_from_slice(b"(")?;
    write_exprs(alloc, out, arguments)?;
    out.extend_from_slice(b")")
}

/// A built-in function of one argument or more.
#[cycle(write)]
fn write_on_many(
    alloc: Global,
    out: &mut Bytes,
    function: FuncN,
    arguments: &List<Expr>,
) -> Result<(), NoMemory>
    ensures { OnOk result (out.new ≡ out.old ++ tree_text (on_many function (view_trees arguments.now))) }
{
    write_function(out, Func::Many(function))?;
    write_exprs(alloc, out, arguments)?;
    out.extend_from_slice(b")")
}

#[cycle(write)]
fn write_on_one(
    alloc: Global,
    out: &mut Bytes,
    function: Func1,
    a: &Boxed<Expr>,
) -> Result<(), NoMemory>
    ensures { OnOk result (out.new ≡ out.old ++ tree_text (on_one function (view_tree a.now))) }
{
    write_function(out, Func::One(function))?;
    write_expr(alloc, out, a.get())?;
    out.extend_from_slice(b")")
}

#[cycle(write)]
fn write_on_two(
    alloc: Global,
    out: &mut Bytes,
    function: Func2,
    a: &Boxed<Expr>,
    b: &Boxed<Expr>,
) -> Result<(), NoMemory>
    ensures { OnOk result (out.new ≡ out.old ++ tree_text (on_two function (view_tree a.now) (view_tree b.now))) }
{
    write_function(out, Func::Two(function))?;
    write_expr(alloc, out, a.get())?;
    write_next(alloc, out, b)?;
    out.extend_from_slice(b")")
}

#[cycle(write)]
fn write_on_three(
    alloc: Global,
    out: &mut Bytes,
    function: Func3,
    a: &Boxed<Expr>,
    b: &Boxed<Expr>,
    c: &Boxed<Expr>,
) -> Result<(), NoMemory>
    ensures { OnOk result (out.new ≡ out.old ++ tree_text (on_three function (view_tree a.now) (view_tree b.now) (view_tree c.now))) }
{
    write_function(out, Func::Three(function))?;
    write_expr(alloc, out, a.get())?;
    write_next(alloc, out, b)?;
    write_next(alloc, out, c)?;
    out.extend_from_slice(b")")
}

/// A further argument of a call.
#[cycle(write)]
fn write_next(alloc: Global, out: &mut Bytes, expr: &Boxed<Expr>) -> Result<(), NoMemory>
    ensures { OnOk result (out.new ≡ out.old ++ (codes ", " ++ tree_text (view_tree expr.now))) }
{
    out.extend_from_slice(b", ")?;
    write_expr(alloc, out, expr.get())
}

/// The number that RAND() is multiplied by.
#[cycle(write)]
fn write_factor(alloc: Global, out: &mut Bytes, expr: &Boxed<Expr>) -> Result<(), NoMemory>
    ensures { OnOk result (out.new ≡ out.old ++ factor_text (view_tree expr.now)) }
{
    if is_choice(expr.get()) {
        out.extend_from_slice(b"(")?;
        write_expr(alloc, out, expr.get())?;
        out.extend_from_slice(b")")
    } else {
        write_expr(alloc, out, expr.get())
    }
}

/// Expressions with a comma and a space between two.
#[cycle(write)]
pub fn write_exprs(alloc: Global, out: &mut Bytes, exprs: &List<Expr>) -> Result<(), NoMemory>
    ensures { OnOk result (out.new ≡ out.old ++ trees_text (view_trees exprs.now)) }
{
    let mut first = true;
    for expr in exprs.as_slice() {
        if !first {
            out.extend_from_slice(b", ")?;
        }
        write_expr(alloc, out, expr)?;
        first = false;
    }
    Ok(())
}

#[cycle(write)]
fn write_arms(alloc: Global, out: &mut Bytes, arms: &List<Arm>) -> Result<(), NoMemory>
    ensures { OnOk result (out.new ≡ out.old ++ arms_text (view_arms arms.now)) }
{
    for arm in arms.as_slice() {
        out.extend_from_slice(b" WHEN ")?;
        write_expr(alloc, out, &arm.condition)?;
        out.extend_from_slice(b" THEN ")?;
        write_expr(alloc, out, &arm.value)?;
    }
    Ok(())
}

#[cycle(write)]
fn write_else(
    alloc: Global,
    out: &mut Bytes,
    otherwise: &Option<Boxed<Expr>>,
) -> Result<(), NoMemory>
    ensures { OnOk result (out.new ≡ out.old ++ else_text (view_part otherwise.now)) }
{
    match otherwise {
        None => Ok(()),
        Some(expr) => {
            out.extend_from_slice(b" ELSE ")?;
            write_expr(alloc, out, expr.get())
        }
    }
}

#[cycle(write)]
fn write_where(alloc: Global, out: &mut Bytes, filter: &Option<Boxed<Expr>>) -> Result<(), NoMemory>
    ensures { OnOk result (out.new ≡ out.old ++ where_text (view_part filter.now)) }
{
    match filter {
        None => Ok(()),
        Some(expr) => {
            out.extend_from_slice(b" WHERE ")?;
            write_expr(alloc, out, expr.get())
        }
    }
}

/// A SELECT.
#[cycle(write)]
pub fn write_select(alloc: Global, out: &mut Bytes, select: &Select) -> Result<(), NoMemory>
    ensures { OnOk result (out.new ≡ out.old ++ query_text (view_query select.now)) }
{
    out.extend_from_slice(b"SELECT ")?;
    write_selection(alloc, out, &select.what)?;
    write_from(alloc, out, &select.from)
}

#[cycle(write)]
fn write_selection(alloc: Global, out: &mut Bytes, what: &Selection) -> Result<(), NoMemory>
    ensures { OnOk result (out.new ≡ out.old ++ selected_text (view_selected what.now)) }
{
    match what {
        Selection::Items(items) => write_exprs(alloc, out, items),
        Selection::All => out.extend_from_slice(b"*"),
        Selection::Aggregates(aggregates) => write_aggregates(alloc, out, aggregates),
    }
}

#[cycle(write)]
fn write_aggregates(
    alloc: Global,
    out: &mut Bytes,
    aggregates: &List<Aggregate>,
) -> Result<(), NoMemory>
    ensures { OnOk result (out.new ≡ out.old ++ aggregates_text (view_aggregates aggregates.now)) }
{
    let mut first = true;
    for aggregate in aggregates.as_slice() {
        if !first {
            out.extend_from_slice(b", ")?;
        }
        match aggregate {
            Aggregate::CountAll => out.extend_from_slice(b"COUNT(*)")?,
            Aggregate::Of(function, expr) => {
                write_aggregate_name(out, *function)?;
                write_expr(alloc, out, expr.get())?;
                out.extend_from_slice(b")")?;
            }
        }
        first = false;
    }
    Ok(())
}

#[cycle(write)]
fn write_from(alloc: Global, out: &mut Bytes, from: &Option<FromClause>) -> Result<(), NoMemory>
    ensures { OnOk result (out.new ≡ out.old ++ origin_text (view_origin from.now)) }
{
    match from {
        None => Ok(()),
        Some(from) => {
            out.extend_from_slice(b" FROM ")?;
            write_name(out, &from.table)?;
            write_where(alloc, out, &from.filter)?;
            write_order(alloc, out, &from.order)?;
            write_limit_if(alloc, out, &from.limit)
        }
    }
}

/// ORDER BY, nothing where there is no item.
#[cycle(write)]
pub fn write_order(alloc: Global, out: &mut Bytes, order: &List<OrderItem>) -> Result<(), NoMemory>
    ensures { OnOk result (out.new ≡ out.old ++ orders_text (view_orders order.now)) }
{
    let mut first = true;
    for item in order.as_slice() {
        if first {
            out.extend_from_slice(b" ORDER BY ")?;
        } else {
            out.extend_from_slice(b", ")?;
        }
        write_expr(alloc, out, &item.by)?;
        write_direction(out, item.descending)?;
        first = false;
    }
    Ok(())
}
