//! Statements, and the stored programs that some of them create.
use crate::expressions::{Count, Expr, OrderItem, Select};
use val_types::{Boxed, Bytes, List, Value};

/// A statement, or a statement inside a stored program.
#[cycle(statement)]
#[derive(Drop)]
pub enum Stmt {
    CreateTable(CreateTable),
    CreateFunction(Boxed<Routine>),
    CreateProcedure(Boxed<Routine>),
    CreateTrigger(Boxed<TriggerDef>),
    DropTable(Bytes),
    DropFunction(Bytes),
    DropProcedure(Bytes),
    DropTrigger(Bytes),
    Truncate(Bytes),
    Insert(InsertStmt),
    Replace(ReplaceStmt),
    Update(UpdateStmt),
    Delete(DeleteStmt),
    Select(Select),
    Do(List<Expr>),
    Set(List<Assignment>),
    /// A CALL of a procedure.
    Call {
        name: Bytes,
        arguments: List<Expr>,
    },
    /// BEGIN or START TRANSACTION.
    Begin,
    Commit,
    Rollback,
    Savepoint(Bytes),
    RollbackTo(Bytes),
    ReleaseSavepoint(Bytes),
    /// `BEGIN .. END` in a stored program.
    Block {
        declarations: List<Declaration>,
        body: List<Stmt>,
    },
    /// IF with its ELSEIFs, and ELSE.
    If {
        arms: List<Branch>,
        otherwise: Option<List<Stmt>>,
    },
    While {
        condition: Expr,
        steps: List<Stmt>,
    },
    Return(Expr),
}

/// `condition THEN steps` of an IF.
#[cycle(statement)]
#[derive(Drop)]
pub struct Branch {
    pub condition: Expr,
    pub steps: List<Stmt>,
}

/// A stored function or procedure.
#[cycle(statement)]
#[derive(Drop)]
pub struct Routine {
    pub name: Bytes,
    pub parameters: List<Parameter>,
    /// None for a procedure.
    pub returns: Option<SqlType>,
    pub body: Stmt,
}

/// A trigger.
#[cycle(statement)]
#[derive(Drop)]
pub struct TriggerDef {
    pub name: Bytes,
    pub time: Time,
    pub event: Cause,
    pub table: Bytes,
    pub body: Stmt,
}

/// When a trigger runs: before or after the change of the row.
#[derive(Clone, Copy, PartialEq, Eq)]
pub enum Time {
    Before,
    After,
}

/// The change that a trigger waits for.
#[derive(Clone, Copy, PartialEq, Eq)]
pub enum Cause {
    Insert,
    Update,
    Delete,
}

/// A type as it was written. The number of VARCHAR may be above what a column can have.
#[derive(Clone, Copy, PartialEq, Eq)]
pub enum SqlType {
    Int,
    BigInt,
    Varchar(u64),
}

/// A parameter of a stored function or procedure.
#[derive(Drop)]
pub struct Parameter {
    pub name: Bytes,
    pub kind: SqlType,
}

/// CREATE TABLE. A key that stands at a column is in `primary` or `uniques`.
#[derive(Drop)]
pub struct CreateTable {
    pub name: Bytes,
    pub columns: List<Column>,
    pub primary: Option<List<Bytes>>,
    pub uniques: List<UniqueKey>,
}

/// A column of CREATE TABLE.
#[derive(Drop)]
pub struct Column {
    pub name: Bytes,
    pub kind: SqlType,
    pub nullable: bool,
    /// The literal behind DEFAULT.
    pub preset: Option<Value>,
    pub auto_increment: bool,
}

/// A unique key of CREATE TABLE.
#[derive(Drop)]
pub struct UniqueKey {
    pub name: Bytes,
    pub columns: List<Bytes>,
}

/// INSERT. Where `update` has items, they stand behind ON DUPLICATE KEY UPDATE.
#[derive(Drop)]
pub struct InsertStmt {
    pub ignore: bool,
    pub table: Bytes,
    pub columns: Option<List<Bytes>>,
    pub source: Source,
    pub update: List<ColumnSet>,
}

/// REPLACE.
#[derive(Drop)]
pub struct ReplaceStmt {
    pub table: Bytes,
    pub columns: Option<List<Bytes>>,
    pub source: Source,
}

/// Where the rows of INSERT and REPLACE come from.
#[derive(Drop)]
pub enum Source {
    /// VALUES
    Rows(List<List<Expr>>),
    Select(Select),
}

/// `column = value` in UPDATE or behind ON DUPLICATE KEY UPDATE.
#[derive(Drop)]
pub struct ColumnSet {
    pub column: Bytes,
    pub value: Expr,
}

/// UPDATE.
#[derive(Drop)]
pub struct UpdateStmt {
    pub table: Bytes,
    pub sets: List<ColumnSet>,
    pub filter: Option<Expr>,
    pub order: List<OrderItem>,
    pub limit: Option<Count>,
}

/// DELETE.
#[derive(Drop)]
pub struct DeleteStmt {
    pub table: Bytes,
    pub filter: Option<Expr>,
    pub order: List<OrderItem>,
    pub limit: Option<Count>,
}

/// An assignment of SET.
#[derive(Drop)]
pub struct Assignment {
    pub target: Target,
    pub value: Expr,
}

/// What an assignment of SET writes.
#[derive(Drop)]
pub enum Target {
    /// `@x`
    User(Bytes),
    /// `x`: a local variable or a session variable.
    Plain(Bytes),
    /// `@@x`
    System(Bytes),
    /// `NEW.x`
    New(Bytes),
}

/// `DECLARE names kind DEFAULT preset` of a block.
#[derive(Drop)]
pub struct Declaration {
    pub names: List<Bytes>,
    pub kind: SqlType,
    pub preset: Option<Expr>,
}
