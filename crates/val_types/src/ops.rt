//! The operators, built-in functions and aggregates of SQL, by name.

/// An operator between two operands. `%` is [`BinOp::Modulo`] and `!=` is [`BinOp::NotEqual`].
#[derive(Clone, Copy, PartialEq, Eq)]
pub enum BinOp {
    Or,
    And,
    Equal,
    NullSafeEqual,
    NotEqual,
    Less,
    LessOrEqual,
    Greater,
    GreaterOrEqual,
    Add,
    Subtract,
    Multiply,
    Divide,
    Modulo,
}

/// An operator on one operand: the prefixes `-` and NOT, and the suffixes IS NULL and IS NOT NULL.
#[derive(Clone, Copy, PartialEq, Eq)]
pub enum UnOp {
    Negate,
    Not,
    IsNull,
    IsNotNull,
}

/// A built-in function, by its number of arguments.
#[derive(Clone, Copy, PartialEq, Eq)]
pub enum Func {
    Zero(Func0),
    One(Func1),
    Two(Func2),
    Three(Func3),
    /// One argument or more.
    Many(FuncN),
}

/// A built-in function without arguments.
#[derive(Clone, Copy, PartialEq, Eq)]
pub enum Func0 {
    Now,
    UnixTimestamp,
    SysDate,
    User,
    Uuid,
    ConnectionId,
    LastInsertId,
    RowCount,
}

/// A built-in function of one argument.
#[derive(Clone, Copy, PartialEq, Eq)]
pub enum Func1 {
    Abs,
    Length,
}

/// A built-in function of two arguments.
#[derive(Clone, Copy, PartialEq, Eq)]
pub enum Func2 {
    IfNull,
}

/// A built-in function of three arguments.
#[derive(Clone, Copy, PartialEq, Eq)]
pub enum Func3 {
    If,
    /// The text, the place counted from 1, and how many bytes.
    Substring,
}

/// A built-in function of one argument or more.
#[derive(Clone, Copy, PartialEq, Eq)]
pub enum FuncN {
    Coalesce,
    Concat,
}

/// An aggregate over rows.
#[derive(Clone, Copy, PartialEq, Eq)]
pub enum Agg {
    Count,
    Sum,
    Min,
    Max,
}
