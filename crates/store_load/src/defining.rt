//! A definition, made again by its text.
ghost use Rattle.std.specs.Prelude.{◌≡◌, ◌≤◌, [], true, length, IfErr, IfOk};
ghost use Rattle.sql_tree.specs.StatementView.{view};
ghost use Rattle.text_answers.specs.Answers.{a_statement, text_answer};
ghost use Rattle.store_model.specs.sql_reach.catalog_rules.Bases.{defined};
ghost use Rattle.store_model.specs.sql_reach.Reach.{is_definition};
ghost use Rattle.store_model.specs.Held.{defined_by};
ghost use Rattle.prog_work.specs.Contents.{base_of};
ghost use Rattle.store_load.specs.Loading.{BaseIs};
ghost use Rattle.store_load.specs.Texts.{IsRefusedText};

use prog_work::{Work, is_definition};
use sql_parse::{ParseRefusal, Parsed, parse_boxed};
use sql_tree::Stmt;
use std::alloc::{AllocError, Global};
use text_answers::texts_are_answered;
use val_types::{NoMemory, SqlRefusal};

/// The statement that a text is, or why it is none.
pub fn statement_of(alloc: Global, text: &[u8]) -> Result<Parsed, ParseRefusal>
    requires { length text.now ≤ 4294967295 }
    ensures statement { IfOk result (λ p. text_answer text.now ≡ a_statement (view p.statement.value)) }
    ensures refused { IfErr result (IsRefusedText (text_answer text.now)) }
{
    texts_are_answered();
    parse_boxed(alloc, text)
}

/// A statement carried out, where it is a definition that nothing refuses.
pub fn define(work: &mut Work, statement: &Stmt) -> Result<bool, NoMemory>
    requires none { work.old.changes ≡ [] }
    requires definition { is_definition (view statement.now) ≡ true }
    ensures { IfOk result (λ made. BaseIs made (defined (view statement.now) (base_of work.old)) work.new) }
{
    match work.define(statement) {
        Ok(_) => Ok(true),
        Err(SqlRefusal::Sql(_)) => Ok(false),
        Err(SqlRefusal::NoMemory) => Err(AllocError),
    }
}

/// The definition that a text is made, where it is one that nothing refuses.
pub(crate) fn define_by(alloc: Global, work: &mut Work, text: &[u8]) -> Result<bool, NoMemory>
    requires none { work.old.changes ≡ [] }
    requires fits { length text.now ≤ 4294967295 }
    ensures { IfOk result (λ made. BaseIs made (defined_by text.now (base_of work.old)) work.new) }
{
    match statement_of(alloc, text) {
        Ok(parsed) => {
            if is_definition(&parsed.statement) {
                define(work, &parsed.statement)
            } else {
                Ok(false)
            }
        }
        Err(ParseRefusal::Syntax { .. }) => Ok(false),
        Err(ParseRefusal::Deep) => Ok(false),
        Err(ParseRefusal::NoMemory) => Err(AllocError),
    }
}
