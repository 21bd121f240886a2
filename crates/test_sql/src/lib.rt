//! Callers of the crates of SQL texts and trees, as a test of how little proof their contracts ask
//! of the crates above; and the tests of those crates, each public call with ample memory. They
//! stand here since a crate with tests of its own is proved once more for them.
//!
//! # Proved
//! [`read_back`] gives the same statement or want of memory, for every statement that the parser can
//! give.
//!
//! # Only tested
//! By tables worked out by hand from the grammar: texts that are statements, texts with their
//! canonical text, texts that are none with the place, fronts of statements, words that are names,
//! 400 and 401 constructs open at once, 200 and 201 levels, how a refusal is told; and that trees are
//! copied, measured and printed with ample memory.
#![tactic(auto)]

ghost use Rattle.std.specs.Prelude.{◌≡◌, IfErr, IfOk};
ghost use Rattle.sql_parse.specs.declared.parsing.ParseRefusal.TheVariants.{NoMemory};
ghost use Rattle.sql_tree.specs.StatementView.{view};
ghost use Rattle.sql_tree.specs.Well.{IsWell};

use sql_parse::{ParseRefusal, parse};
use sql_print::print;
use sql_text::prints_are_read;
use sql_tree::Stmt;
use std::alloc::Global;

#[cfg(test)]
mod tests;

/// A statement that the parser can give, printed and read back: the same statement, unless memory
/// runs out. A text that is longer than `parse` takes counts as that.
pub fn read_back(alloc: Global, statement: &Stmt) -> Result<Stmt, ParseRefusal>
    requires { IsWell (view statement.now) }
    ensures ok { IfOk result (λ read. view read ≡ view statement.now) }
    ensures err { IfErr result (λ e. e ≡ NoMemory) }
{
    prints_are_read();
    let text = print(alloc, statement)?;
    if text.len() > 4_294_967_295 {
        return Err(ParseRefusal::NoMemory);
    }
    parse(alloc, text.as_slice())
}
