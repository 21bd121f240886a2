//! Expressions and SELECTs with locals closed in, at the end of a length.
ghost use Rattle.std.specs.Prelude.{◌≡◌, ◌++◌, codes};
ghost use Rattle.sql_tree.specs.BuiltIns.{on_many, on_none, on_one, on_three, on_two};
ghost use Rattle.sql_tree.specs.View.{view_aggregate, view_aggregates, view_arm, view_arms, view_from, view_order, view_orders, view_origin, view_part, view_query, view_selected, view_tree, view_trees};
ghost use Rattle.sql_print.specs.Names.{quoted_name};
ghost use Rattle.sql_print.specs.Spelling.{aggregate_of, aggregates_text, arms_text, before_operand, behind_operand, direction_of, else_text, factor_text, function_of, in_of, is_choice, operator_of, orders_text, origin_text, query_text, selected_text, tree_text, trees_text, where_text};
ghost use Rattle.name_const_length.specs.Closed.{closed_aggregates, closed_arms, closed_orders, closed_origin, closed_part, closed_query, closed_selected, closed_tree, closed_trees};
ghost use Rattle.name_const_length.specs.Growing.{grown};
ghost use Rattle.name_const_length.specs.Items.{aggregate_text, arm_text, closed_aggregate, closed_arm, closed_item, item_text, order_words};

use crate::lengths::{
    add, add_closed_name, add_comma, add_limit_if, add_name, add_name_const, add_prefixed,
    add_value,
};
use crate::words::add_system_name;
use sql_locals::Locals;
use sql_tree::{Aggregate, Arm, Expr, FromClause, OrderItem, Select, Selection, function_name};
use val_types::{Agg, BinOp, Boxed, Bytes, Func, Func0, Func1, Func2, Func3, FuncN, List, UnOp};

fn add_operator(total: &mut u64, op: BinOp)
    ensures { total.new ≡ grown total.old (operator_of op) }
{
    match op {
        BinOp::Or => add(total, b" OR "),
        BinOp::And => add(total, b" AND "),
        BinOp::Equal => add(total, b" = "),
        BinOp::NullSafeEqual => add(total, b" <=> "),
        BinOp::NotEqual => add(total, b" <> "),
        BinOp::Less => add(total, b" < "),
        BinOp::LessOrEqual => add(total, b" <= "),
        BinOp::Greater => add(total, b" > "),
        BinOp::GreaterOrEqual => add(total, b" >= "),
        BinOp::Add => add(total, b" + "),
        BinOp::Subtract => add(total, b" - "),
        BinOp::Multiply => add(total, b" * "),
        BinOp::Divide => add(total, b" DIV "),
        BinOp::Modulo => add(total, b" MOD "),
    }
}

fn add_before_operand(total: &mut u64, op: UnOp)
    ensures { total.new ≡ grown total.old (before_operand op) }
{
    match op {
        UnOp::Negate => add(total, b"(- "),
        UnOp::Not => add(total, b"(NOT "),
        UnOp::IsNull | UnOp::IsNotNull => add(total, b"("),
    }
}

fn add_behind_operand(total: &mut u64, op: UnOp)
    ensures { total.new ≡ grown total.old (behind_operand op) }
{
    match op {
        UnOp::Negate | UnOp::Not => add(total, b")"),
        UnOp::IsNull => add(total, b" IS NULL)"),
        UnOp::IsNotNull => add(total, b" IS NOT NULL)"),
    }
}

fn add_in(total: &mut u64, negated: bool)
    ensures { total.new ≡ grown total.old (in_of negated) }
{
    if negated {
        add(total, b" NOT IN (");
    } else {
        add(total, b" IN (");
    }
}

fn add_aggregate_name(total: &mut u64, function: Agg)
    ensures { total.new ≡ grown total.old (aggregate_of function) }
{
    match function {
        Agg::Count => add(total, b"COUNT("),
        Agg::Sum => add(total, b"SUM("),
        Agg::Min => add(total, b"MIN("),
        Agg::Max => add(total, b"MAX("),
    }
}

/// The name of a built-in function and the parenthesis behind it.
fn add_function(total: &mut u64, function: Func)
    ensures { total.new ≡ grown total.old ((function_of function ++ codes "(")) }
{
    add(total, function_name(function));
    add(total, b"(");
}

/// ORDER BY before the first item, a comma and a space before the others.
fn add_order_words(total: &mut u64, first: bool)
    ensures { total.new ≡ grown total.old (order_words first) }
{
    if first {
        add(total, b" ORDER BY ");
    } else {
        add(total, b", ");
    }
}

/// A built-in function without arguments.
fn add_on_none(total: &mut u64, function: Func0)
    ensures { total.new ≡ grown total.old (tree_text (on_none function)) }
{
    add_function(total, Func::Zero(function));
    add(total, b")");
}

fn add_direction(total: &mut u64, descending: bool)
    ensures { total.new ≡ grown total.old (direction_of descending) }
{
    if descending {
        add(total, b" DESC");
    } else {}
}

fn is_choice(expr: &Expr) -> bool
    ensures { result ≡ is_choice (view_tree expr.now) }
{
    matches!(expr, Expr::Case { .. })
}

/// `table.column`
fn add_column(total: &mut u64, table: &Bytes, column: &Bytes)
    ensures { total.new ≡ grown total.old (quoted_name table.now ++ codes "." ++ quoted_name column.now) }
{
    add_name(total, table);
    add_prefixed(total, b".", column);
}

/// `VALUES(column)`
fn add_values(total: &mut u64, column: &Bytes)
    ensures { total.new ≡ grown total.old (codes "VALUES(" ++ quoted_name column.now ++ codes ")") }
{
    add_prefixed(total, b"VALUES(", column);
    add(total, b")");
}

/// An expression.
#[cycle(add)]
pub fn add_expr(total: &mut u64, locals: &Locals, expr: &Expr)
    ensures { total.new ≡ grown total.old (tree_text (closed_tree locals.now (view_tree expr.now))) }
{
    match expr {
        Expr::Literal(value) => add_value(total, value),
        Expr::Name(name) => add_closed_name(total, locals, name),
        Expr::Column(table, column) => add_column(total, table, column),
        Expr::NewColumn(column) => add_prefixed(total, b"NEW.", column),
        Expr::OldColumn(column) => add_prefixed(total, b"OLD.", column),
        Expr::UserVariable(name) => add_prefixed(total, b"@", name),
        Expr::SystemVariable(name) => add_system_name(total, name),
        Expr::Unary(op, a) => add_unary(total, locals, *op, a),
        Expr::Binary(op, a, b) => add_binary(total, locals, *op, a, b),
        Expr::In {
            negated,
            left,
            items,
        } => add_membership(total, locals, *negated, left, items),
        Expr::Case { arms, otherwise } => add_case(total, locals, arms, otherwise),
        Expr::Subquery(select) => add_query(total, locals, b"(", select),
        Expr::Exists(select) => add_query(total, locals, b"EXISTS (", select),
        Expr::Call { name, arguments } => add_call(total, locals, name, arguments),
        Expr::Values(column) => add_values(total, column),
        Expr::NameConst(name, value) => add_name_const(total, name, value),
        Expr::FloorRand(a) => add_floor_rand(total, locals, a),
        Expr::Func0(function) => add_on_none(total, *function),
        Expr::Func1(function, a) => add_on_one(total, locals, *function, a),
        Expr::Func2(function, a, b) => add_on_two(total, locals, *function, a, b),
        Expr::Func3(function, a, b, c) => add_on_three(total, locals, *function, a, b, c),
        Expr::FuncN(function, arguments) => add_on_many(total, locals, *function, arguments),
    }
}

#[cycle(add)]
fn add_unary(total: &mut u64, locals: &Locals, op: UnOp, a: &Boxed<Expr>)
    ensures { total.new ≡ grown total.old (before_operand op ++ tree_text (closed_tree locals.now (view_tree a.now)) ++ behind_operand op) }
{
    add_before_operand(total, op);
    add_expr(total, locals, a.get());
    add_behind_operand(total, op);
}

#[cycle(add)]
fn add_binary(total: &mut u64, locals: &Locals, op: BinOp, a: &Boxed<Expr>, b: &Boxed<Expr>)
    ensures { total.new ≡ grown total.old (codes "(" ++ tree_text (closed_tree locals.now (view_tree a.now)) ++ operator_of op ++ tree_text (closed_tree locals.now (view_tree b.now)) ++ codes ")") }
{
    add(total, b"(");
    add_expr(total, locals, a.get());
    add_operator(total, op);
    add_expr(total, locals, b.get());
    add(total, b")");
}

/// IN or NOT IN.
#[cycle(add)]
fn add_membership(
    total: &mut u64,
    locals: &Locals,
    negated: bool,
    left: &Boxed<Expr>,
    items: &List<Expr>,
)
    ensures { total.new ≡ grown total.old ((codes "(" ++ tree_text (closed_tree locals.now (view_tree left.now)) ++ in_of negated ++ trees_text (closed_trees locals.now (view_trees items.now)) ++ codes "))")) }
{
    add(total, b"(");
    add_expr(total, locals, left.get());
    add_in(total, negated);
    add_exprs(total, locals, items);
    add(total, b"))");
}

#[cycle(add)]
fn add_case(total: &mut u64, locals: &Locals, arms: &List<Arm>, otherwise: &Option<Boxed<Expr>>)
    ensures { total.new ≡ grown total.old (codes "CASE" ++ arms_text (closed_arms locals.now (view_arms arms.now)) ++ else_text (closed_part locals.now (view_part otherwise.now)) ++ codes " END") }
{
    add(total, b"CASE");
    add_arms(total, locals, arms);
    add_else(total, locals, otherwise);
    add(total, b" END");
}

/// A SELECT in parentheses, from what opens them.
#[cycle(add)]
fn add_query(total: &mut u64, locals: &Locals, opening: &[u8], select: &Boxed<Select>)
    ensures { total.new ≡ grown total.old ((opening.now ++ query_text (closed_query locals.now (view_query select.now)) ++ codes ")")) }
{
    add(total, opening);
    add_select(total, locals, select.get());
    add(total, b")");
}

/// A call of a stored function.
#[cycle(add)]
fn add_call(total: &mut u64, locals: &Locals, name: &Bytes, arguments: &List<Expr>)
    ensures { total.new ≡ grown total.old (quoted_name name.now ++ codes "(" ++ trees_text (closed_trees locals.now (view_trees arguments.now)) ++ codes ")") }
{
    add_name(total, name);
    add(total, b"(");
    add_exprs(total, locals, arguments);
    add(total, b")");
}

/// `FLOOR(RAND() * n)`
#[cycle(add)]
fn add_floor_rand(total: &mut u64, locals: &Locals, a: &Boxed<Expr>)
    ensures { total.new ≡ grown total.old (codes "FLOOR(RAND() * " ++ factor_text (closed_tree locals.now (view_tree a.now)) ++ codes ")") }
{
    add(total, b"FLOOR(RAND() * ");
    add_factor(total, locals, a);
    add(total, b")");
}

/// A built-in function of one argument or more.
#[cycle(add)]
fn add_on_many(total: &mut u64, locals: &Locals, function: FuncN, arguments: &List<Expr>)
    ensures { total.new ≡ grown total.old (tree_text (on_many function (closed_trees locals.now (view_trees arguments.now)))) }
{
    add_function(total, Func::Many(function));
    add_exprs(total, locals, arguments);
    add(total, b")");
}

#[cycle(add)]
fn add_on_one(total: &mut u64, locals: &Locals, function: Func1, a: &Boxed<Expr>)
    ensures { total.new ≡ grown total.old (tree_text (on_one function (closed_tree locals.now (view_tree a.now)))) }
{
    add_function(total, Func::One(function));
    add_expr(total, locals, a.get());
    add(total, b")");
}

#[cycle(add)]
fn add_on_two(total: &mut u64, locals: &Locals, function: Func2, a: &Boxed<Expr>, b: &Boxed<Expr>)
    ensures { total.new ≡ grown total.old (tree_text (on_two function (closed_tree locals.now (view_tree a.now)) (closed_tree locals.now (view_tree b.now)))) }
{
    add_function(total, Func::Two(function));
    add_expr(total, locals, a.get());
    add_next(total, locals, b);
    add(total, b")");
}

#[cycle(add)]
fn add_on_three(
    total: &mut u64,
    locals: &Locals,
    function: Func3,
    a: &Boxed<Expr>,
    b: &Boxed<Expr>,
    c: &Boxed<Expr>,
)
    ensures { total.new ≡ grown total.old (tree_text (on_three function (closed_tree locals.now (view_tree a.now)) (closed_tree locals.now (view_tree b.now)) (closed_tree locals.now (view_tree c.now)))) }
{
    add_function(total, Func::Three(function));
    add_expr(total, locals, a.get());
    add_next(total, locals, b);
    add_next(total, locals, c);
    add(total, b")");
}

/// A further argument of a call.
#[cycle(add)]
fn add_next(total: &mut u64, locals: &Locals, expr: &Boxed<Expr>)
    ensures { total.new ≡ grown total.old (codes ", " ++ tree_text (closed_tree locals.now (view_tree expr.now))) }
{
    add(total, b", ");
    add_expr(total, locals, expr.get());
}

/// The number that RAND() is multiplied by.
#[cycle(add)]
fn add_factor(total: &mut u64, locals: &Locals, expr: &Boxed<Expr>)
    ensures { total.new ≡ grown total.old (factor_text (closed_tree locals.now (view_tree expr.now))) }
{
    if is_choice(expr.get()) {
        add(total, b"(");
        add_expr(total, locals, expr.get());
        add(total, b")");
    } else {
        add_expr(total, locals, expr.get());
    }
}

/// Expressions with a comma and a space between two.
#[cycle(add)]
pub fn add_exprs(total: &mut u64, locals: &Locals, exprs: &List<Expr>)
    ensures { total.new ≡ grown total.old (trees_text (closed_trees locals.now (view_trees exprs.now))) }
{
    let mut first = true;
    for expr in exprs.as_slice() {
        add_comma(total, first);
        add_expr(total, locals, expr);
        first = false;
    }
}

/// WHEN with its THEN.
#[cycle(add)]
fn add_arm(total: &mut u64, locals: &Locals, arm: &Arm)
    ensures { total.new ≡ grown total.old (arm_text (closed_arm locals.now (view_arm arm.now))) }
{
    add(total, b" WHEN ");
    add_expr(total, locals, &arm.condition);
    add(total, b" THEN ");
    add_expr(total, locals, &arm.value);
}

#[cycle(add)]
fn add_arms(total: &mut u64, locals: &Locals, arms: &List<Arm>)
    ensures { total.new ≡ grown total.old (arms_text (closed_arms locals.now (view_arms arms.now))) }
{
    for arm in arms.as_slice() {
        add_arm(total, locals, arm);
    }
}

#[cycle(add)]
fn add_else(total: &mut u64, locals: &Locals, otherwise: &Option<Boxed<Expr>>)
    ensures { total.new ≡ grown total.old (else_text (closed_part locals.now (view_part otherwise.now))) }
{
    match otherwise {
        None => {}
        Some(expr) => {
            add(total, b" ELSE ");
            add_expr(total, locals, expr.get());
        }
    }
}

#[cycle(add)]
fn add_where(total: &mut u64, locals: &Locals, filter: &Option<Boxed<Expr>>)
    ensures { total.new ≡ grown total.old (where_text (closed_part locals.now (view_part filter.now))) }
{
    match filter {
        None => {}
        Some(expr) => {
            add(total, b" WHERE ");
            add_expr(total, locals, expr.get());
        }
    }
}

/// A SELECT.
#[cycle(add)]
pub fn add_select(total: &mut u64, locals: &Locals, select: &Select)
    ensures { total.new ≡ grown total.old (query_text (closed_query locals.now (view_query select.now))) }
{
    add(total, b"SELECT ");
    add_selection(total, locals, &select.what);
    add_from(total, locals, &select.from);
}

#[cycle(add)]
fn add_selection(total: &mut u64, locals: &Locals, what: &Selection)
    ensures { total.new ≡ grown total.old (selected_text (closed_selected locals.now (view_selected what.now))) }
{
    match what {
        Selection::Items(items) => add_exprs(total, locals, items),
        Selection::All => add(total, b"*"),
        Selection::Aggregates(aggregates) => add_aggregates(total, locals, aggregates),
    }
}

#[cycle(add)]
fn add_aggregate(total: &mut u64, locals: &Locals, aggregate: &Aggregate)
    ensures { total.new ≡ grown total.old (aggregate_text (closed_aggregate locals.now (view_aggregate aggregate.now))) }
{
    match aggregate {
        Aggregate::CountAll => add(total, b"COUNT(*)"),
        Aggregate::Of(function, expr) => {
            add_aggregate_name(total, *function);
            add_expr(total, locals, expr.get());
            add(total, b")");
        }
    }
}

#[cycle(add)]
fn add_aggregates(total: &mut u64, locals: &Locals, aggregates: &List<Aggregate>)
    ensures { total.new ≡ grown total.old (aggregates_text (closed_aggregates locals.now (view_aggregates aggregates.now))) }
{
    let mut first = true;
    for aggregate in aggregates.as_slice() {
        add_comma(total, first);
        add_aggregate(total, locals, aggregate);
        first = false;
    }
}

/// FROM with what follows it.
#[cycle(add)]
fn add_clause(total: &mut u64, locals: &Locals, from: &FromClause)
    ensures { total.new ≡ grown total.old (origin_text (closed_origin locals.now (view_from from.now))) }
{
    add(total, b" FROM ");
    add_name(total, &from.table);
    add_where(total, locals, &from.filter);
    add_order(total, locals, &from.order);
    add_limit_if(total, locals, &from.limit);
}

#[cycle(add)]
fn add_from(total: &mut u64, locals: &Locals, from: &Option<FromClause>)
    ensures { total.new ≡ grown total.old (origin_text (closed_origin locals.now (view_origin from.now))) }
{
    match from {
        None => {}
        Some(from) => add_clause(total, locals, from),
    }
}

/// An item of ORDER BY.
#[cycle(add)]
fn add_item(total: &mut u64, locals: &Locals, item: &OrderItem)
    ensures { total.new ≡ grown total.old (item_text (closed_item locals.now (view_order item.now))) }
{
    add_expr(total, locals, &item.by);
    add_direction(total, item.descending);
}

/// ORDER BY, nothing where there is no item.
#[cycle(add)]
pub fn add_order(total: &mut u64, locals: &Locals, order: &List<OrderItem>)
    ensures { total.new ≡ grown total.old (orders_text (closed_orders locals.now (view_orders order.now))) }
{
    let mut first = true;
    for item in order.as_slice() {
        add_order_words(total, first);
        add_item(total, locals, item);
        first = false;
    }
}
