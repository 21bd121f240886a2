//! DROP, TRUNCATE, the statements of transactions, and what SET assigns to.
ghost use Rattle.std.specs.Prelude.{◌≡◌, ◌∷◌, [], IfOk};
ghost use Rattle.sql_lex.specs.declared.keyword.Keyword.TheVariants as words;
ghost use Rattle.sql_grammar.specs.Rule.{optional};
ghost use Rattle.sql_parse_tokens.specs.Gives.{Gives};
ghost use Rattle.sql_syntax.specs.Sessions as spec;
ghost use Rattle.sql_syntax.specs.Tokens.{code, keyword, kind};
ghost use Rattle.sql_tree.specs.Depth.{depth_of};
ghost use Rattle.sql_tree.specs.StatementView.{view};

use sql_lex::{Keyword, Symbol};
use sql_parse_tokens::fault::Stop;
use sql_parse_tokens::kinds::{FIRST_WORD, code};
use sql_parse_tokens::parts::{
    a_name, dotted_name, name_but, optional_name, system_name, word_name,
};
use sql_parse_tokens::rest::Rest;
use sql_tree::{Stmt, Target};
use std::alloc::Global;
use val_types::Bytes;

/// SESSION and a name, where SESSION alone is a name.
fn session_target<'t>(alloc: Global, rest: Rest<'t>) -> Result<(Target, Rest<'t>), Stop<'t>>
    ensures { Gives (λ t. t) result (spec.session_target.read rest.entry) }
{
    let (session, rest) = word_name(alloc, Keyword::Session, rest)?;
    let (name, rest) = optional_name(alloc, rest)?;
    Ok((Target::Plain(name.unwrap_or(session)), rest))
}

/// A column of NEW, where NEW alone is a name.
fn new_target<'t>(alloc: Global, rest: Rest<'t>) -> Result<(Target, Rest<'t>), Stop<'t>>
    ensures { Gives (λ t. t) result (spec.new_target.read rest.entry) }
{
    let (new, rest) = word_name(alloc, Keyword::New, rest)?;
    let (column, rest) = dotted_name(alloc, rest)?;
    match column {
        None => Ok((Target::Plain(new), rest)),
        Some(column) => Ok((Target::New(column), rest)),
    }
}

/// The words that a target of their own begins with.
const TARGET_WORDS: [u8; 2] = [
    FIRST_WORD + Keyword::Session as u8,
    FIRST_WORD + Keyword::New as u8,
];

/// What an assignment of SET writes.
pub fn target<'t>(alloc: Global, rest: Rest<'t>) -> Result<(Target, Rest<'t>), Stop<'t>>
    ensures { Gives (λ t. t) result (spec.target.read rest.entry) }
{
    if rest.is_mark(Symbol::At) {
        let ((), rest) = rest.skip_mark(Symbol::At)?;
        let (name, rest) = a_name(alloc, rest)?;
        return Ok((Target::User(name), rest));
    }
    if rest.is_mark(Symbol::AtAt) {
        let ((), rest) = rest.skip_mark(Symbol::AtAt)?;
        let (name, rest) = system_name(alloc, rest)?;
        return Ok((Target::System(name), rest));
    }
    if rest.is_key(Keyword::Session) {
        return session_target(alloc, rest);
    }
    if rest.is_key(Keyword::New) {
        return new_target(alloc, rest);
    }
    let (name, rest) = name_but(alloc, &TARGET_WORDS, rest)?;
    Ok((Target::Plain(name), rest))
}

/// `=` or `:=`.
pub fn assigning<'t>(rest: Rest<'t>) -> Result<((), Rest<'t>), Stop<'t>>
    ensures { Gives (λ u. u) result (spec.assigning.read rest.entry) }
{
    if rest.is_mark(Symbol::Equal) {
        rest.skip_mark(Symbol::Equal)
    } else {
        rest.skip_mark(Symbol::Assign)
    }
}

/// DROP of a table, a function, a procedure or a trigger.
pub fn drop_named<'t>(alloc: Global, rest: Rest<'t>) -> Result<(Stmt, Rest<'t>), Stop<'t>>
    ensures reads { Gives view result (spec.drop.read rest.entry) }
    ensures level { IfOk result (λ r. depth_of (view r.0) ≡ 1) }
{
    let ((), rest) = rest.skip_key(Keyword::Drop)?;
    if rest.is_key(Keyword::Table) {
        let ((), rest) = rest.skip_key(Keyword::Table)?;
        let (name, rest) = a_name(alloc, rest)?;
        return Ok((Stmt::DropTable(name), rest));
    }
    if rest.is_key(Keyword::Function) {
        let ((), rest) = rest.skip_key(Keyword::Function)?;
        let (name, rest) = a_name(alloc, rest)?;
        return Ok((Stmt::DropFunction(name), rest));
    }
    if rest.is_key(Keyword::Procedure) {
        let ((), rest) = rest.skip_key(Keyword::Procedure)?;
        let (name, rest) = a_name(alloc, rest)?;
        return Ok((Stmt::DropProcedure(name), rest));
    }
    let ((), rest) = rest.skip_key(Keyword::Trigger)?;
    let (name, rest) = a_name(alloc, rest)?;
    Ok((Stmt::DropTrigger(name), rest))
}

/// TABLE or nothing.
fn optional_table<'t>(rest: Rest<'t>) -> Result<((), Rest<'t>), Stop<'t>>
    ensures { Gives (λ u. u) result ((optional kind (code words.Table ∷ []) (tt {0}) (keyword words.Table)).read rest.entry) }
{
    if rest.is_key(Keyword::Table) {
        rest.skip_key(Keyword::Table)
    } else {
        Ok(((), rest))
    }
}

/// TRUNCATE of a table.
pub fn truncated<'t>(alloc: Global, rest: Rest<'t>) -> Result<(Stmt, Rest<'t>), Stop<'t>>
    ensures reads { Gives view result (spec.truncated.read rest.entry) }
    ensures level { IfOk result (λ r. depth_of (view r.0) ≡ 1) }
{
    let ((), rest) = rest.skip_key(Keyword::Truncate)?;
    let ((), rest) = optional_table(rest)?;
    let (name, rest) = a_name(alloc, rest)?;
    Ok((Stmt::Truncate(name), rest))
}

/// The name of a savepoint with SAVEPOINT before it or not, where SAVEPOINT alone is a name.
fn savepoint_name<'t>(alloc: Global, rest: Rest<'t>) -> Result<(Bytes, Rest<'t>), Stop<'t>>
    ensures { Gives (λ n. n) result (spec.savepoint_name.read rest.entry) }
{
    if rest.is_key(Keyword::Savepoint) {
        let (savepoint, rest) = word_name(alloc, Keyword::Savepoint, rest)?;
        let (name, rest) = optional_name(alloc, rest)?;
        return Ok((name.unwrap_or(savepoint), rest));
    }
    name_but(alloc, &[code(Keyword::Savepoint)], rest)
}

/// ROLLBACK, of all or back to a savepoint.
fn rolled_back<'t>(alloc: Global, rest: Rest<'t>) -> Result<(Stmt, Rest<'t>), Stop<'t>>
    ensures reads { Gives view result (spec.rolled_back.read rest.entry) }
    ensures level { IfOk result (λ r. depth_of (view r.0) ≡ 1) }
{
    let ((), rest) = rest.skip_key(Keyword::Rollback)?;
    if !rest.is_key(Keyword::To) {
        return Ok((Stmt::Rollback, rest));
    }
    let ((), rest) = rest.skip_key(Keyword::To)?;
    let (name, rest) = savepoint_name(alloc, rest)?;
    Ok((Stmt::RollbackTo(name), rest))
}

/// COMMIT, ROLLBACK, SAVEPOINT or RELEASE SAVEPOINT.
pub fn transaction<'t>(alloc: Global, rest: Rest<'t>) -> Result<(Stmt, Rest<'t>), Stop<'t>>
    ensures reads { Gives view result (spec.transaction.read rest.entry) }
    ensures level { IfOk result (λ r. depth_of (view r.0) ≡ 1) }
{
    if rest.is_key(Keyword::Commit) {
        let ((), rest) = rest.skip_key(Keyword::Commit)?;
        return Ok((Stmt::Commit, rest));
    }
    if rest.is_key(Keyword::Rollback) {
        return rolled_back(alloc, rest);
    }
    if rest.is_key(Keyword::Savepoint) {
        let ((), rest) = rest.skip_key(Keyword::Savepoint)?;
        let (name, rest) = a_name(alloc, rest)?;
        return Ok((Stmt::Savepoint(name), rest));
    }
    let ((), rest) = rest.skip_key(Keyword::Release)?;
    let ((), rest) = rest.skip_key(Keyword::Savepoint)?;
    let (name, rest) = a_name(alloc, rest)?;
    Ok((Stmt::ReleaseSavepoint(name), rest))
}

/// BEGIN, with WORK or not.
pub fn begun<'t>(rest: Rest<'t>) -> Result<(Stmt, Rest<'t>), Stop<'t>>
    ensures reads { Gives view result (spec.begun.read rest.entry) }
    ensures level { IfOk result (λ r. depth_of (view r.0) ≡ 1) }
{
    let ((), rest) = rest.skip_key(Keyword::Begin)?;
    if !rest.is_key(Keyword::Work) {
        return Ok((Stmt::Begin, rest));
    }
    let ((), rest) = rest.skip_key(Keyword::Work)?;
    Ok((Stmt::Begin, rest))
}

/// START TRANSACTION.
pub fn started<'t>(rest: Rest<'t>) -> Result<(Stmt, Rest<'t>), Stop<'t>>
    ensures reads { Gives view result (spec.started.read rest.entry) }
    ensures level { IfOk result (λ r. depth_of (view r.0) ≡ 1) }
{
    let ((), rest) = rest.skip_key(Keyword::Start)?;
    let ((), rest) = rest.skip_key(Keyword::Transaction)?;
    Ok((Stmt::Begin, rest))
}
