//! What is running.
use sql_tree::{Expr, Stmt};
use val_types::{Bytes, List};

/// What is under way round an expression, kept on the stack, the innermost first: statements and expressions, whose tables
/// may not be changed meanwhile, and functions, which may not be called meanwhile.
#[derive(Clone, Copy)]
pub enum Running<'a> {
    /// Nothing.
    Nothing,
    /// A statement.
    Statement(&'a Stmt, &'a Running<'a>),
    /// A statement, by the names of the tables in it: gathered once, where many triggers may ask for them.
    Tables(&'a List<Bytes>, &'a Running<'a>),
    /// Expressions that a session evaluates by themselves.
    Expressions(&'a List<Expr>, &'a Running<'a>),
    /// An expression of a body: a condition, a DEFAULT or what is returned.
    Expression(&'a Expr, &'a Running<'a>),
    /// The function of a name.
    Function(&'a Bytes, &'a Running<'a>),
}
