//! The statement that a text of a log is.
ghost use Rattle.std.specs.Prelude.{◌≡◌, IfErr, IfOk, Ok};
ghost use Rattle.sql_tree.specs.StatementView.{view};
ghost use Rattle.apply_model.specs.Texts.{statement_in};
ghost use Rattle.stmt_apply.specs.Ending.{IsRefusal};

use answer_making::statement_of;
use apply_model::binlog_sizes::MOST_TEXT;
use sql_parse::{ParseRefusal, Parsed};
use std::alloc::Global;
use val_types::{SqlError, SqlRefusal, TEXT_TOO_LONG};

/// A text is no statement (ER_PARSE_ERROR).
const NO_STATEMENT: SqlError = 1064;

/// A statement is too deep (this project's number).
const TOO_DEEP: SqlError = 30007;

/// The statement that a text of a log is: 1153, 1064, 30007.
#[tactic(auto, using(crate::proofs::Defined::too_long, crate::proofs::Defined::reads_as))]
pub(crate) fn statement_in(alloc: Global, text: &[u8]) -> Result<Parsed, SqlRefusal>
    ensures statement { IfOk result (λ p. statement_in text.now ≡ Ok (view p.statement.value)) }
    ensures refused { IfErr result (IsRefusal (statement_in text.now)) }
{
    if text.len() > MOST_TEXT {
        return Err(SqlRefusal::Sql(TEXT_TOO_LONG));
    }
    match statement_of(alloc, text) {
        Ok(parsed) => Ok(parsed),
        Err(ParseRefusal::Syntax { .. }) => Err(SqlRefusal::Sql(NO_STATEMENT)),
        Err(ParseRefusal::Deep) => Err(SqlRefusal::Sql(TOO_DEEP)),
        Err(ParseRefusal::NoMemory) => Err(SqlRefusal::NoMemory),
    }
}
