//! Expressions and the SELECTs that stand in them.
use val_types::{Agg, BinOp, Boxed, Bytes, Func0, Func1, Func2, Func3, FuncN, List, UnOp, Value};

/// An expression. Names are folded to lower case and stand without quotes.
#[cycle(expression)]
#[derive(Drop)]
pub enum Expr {
    /// NULL, a number or a text. A number below 0 is one literal, as in `-5`.
    Literal(Value),
    /// A column of the table in view, or a local variable.
    Name(Bytes),
    /// A table's name and a column of it, as in `t.c`.
    Column(Bytes, Bytes),
    /// `NEW.c`
    NewColumn(Bytes),
    /// `OLD.c`
    OldColumn(Bytes),
    /// `@x`
    UserVariable(Bytes),
    /// `@@x`
    SystemVariable(Bytes),
    Unary(UnOp, Boxed<Expr>),
    Binary(BinOp, Boxed<Expr>, Boxed<Expr>),
    /// `left IN (items)`, or `left NOT IN (items)` where negated.
    In {
        negated: bool,
        left: Boxed<Expr>,
        items: List<Expr>,
    },
    /// `CASE WHEN .. THEN .. ELSE .. END`
    Case {
        arms: List<Arm>,
        otherwise: Option<Boxed<Expr>>,
    },
    /// A SELECT of one value, in parentheses.
    Subquery(Boxed<Select>),
    Exists(Boxed<Select>),
    /// A call of a stored function.
    Call {
        name: Bytes,
        arguments: List<Expr>,
    },
    /// `VALUES(c)`, the value that an INSERT would have given to a column.
    Values(Bytes),
    /// `NAME_CONST('name', literal)`
    NameConst(Bytes, Value),
    /// `FLOOR(RAND() * n)`, the one form in which RAND is read.
    FloorRand(Boxed<Expr>),
    /// A built-in without arguments.
    Func0(Func0),
    /// A built-in of one argument.
    Func1(Func1, Boxed<Expr>),
    /// A built-in of two arguments.
    Func2(Func2, Boxed<Expr>, Boxed<Expr>),
    /// A built-in of three arguments.
    Func3(Func3, Boxed<Expr>, Boxed<Expr>, Boxed<Expr>),
    /// A built-in of one argument or more.
    FuncN(FuncN, List<Expr>),
}

/// `WHEN condition THEN value` of a CASE.
#[cycle(expression)]
#[derive(Drop)]
pub struct Arm {
    pub condition: Expr,
    pub value: Expr,
}

/// A SELECT.
#[cycle(expression)]
#[derive(Drop)]
pub struct Select {
    pub what: Selection,
    pub from: Option<FromClause>,
}

/// What a SELECT gives for each row, or for all rows together.
#[cycle(expression)]
#[derive(Drop)]
pub enum Selection {
    Items(List<Expr>),
    /// `*`
    All,
    Aggregates(List<Aggregate>),
}

/// An aggregate over the rows of a SELECT.
#[cycle(expression)]
#[derive(Drop)]
pub enum Aggregate {
    /// `COUNT(*)`
    CountAll,
    Of(Agg, Boxed<Expr>),
}

/// The table of a SELECT, which of its rows, in which order and how many.
#[cycle(expression)]
#[derive(Drop)]
pub struct FromClause {
    pub table: Bytes,
    pub filter: Option<Boxed<Expr>>,
    pub order: List<OrderItem>,
    pub limit: Option<Limit>,
}

/// An item of ORDER BY.
#[cycle(expression)]
#[derive(Drop)]
pub struct OrderItem {
    pub by: Expr,
    pub descending: bool,
}

/// `LIMIT count OFFSET offset`. The text `LIMIT a, b` has the offset a and the count b.
#[derive(Drop)]
pub struct Limit {
    pub count: Count,
    pub offset: Option<Count>,
}

/// A number of rows: written out, or the name of a local variable that holds it.
#[derive(Drop)]
pub enum Count {
    Number(u64),
    Name(Bytes),
}
