//! CREATE TABLE.
ghost use Rattle.std.specs.Prelude.{◌≡◌, ◌||◌, not, is_none, IfOk, true, false, Some, None, [], ◌∷◌};
ghost use Rattle.sql_lex.specs.declared.keyword.Keyword.TheVariants as words;
ghost use Rattle.sql_lex.specs.declared.token.Symbol.TheVariants as signs;
ghost use Rattle.sql_grammar.specs.Rule.{behind, mapped, only_if, optional};
ghost use Rattle.sql_parse_tokens.specs.Gives.{Gives};
ghost use Rattle.sql_syntax.specs.Parts.{a_name, a_value, closed};
ghost use Rattle.sql_syntax.specs.Tables as spec;
ghost use Rattle.sql_syntax.specs.Tokens.{code, keyword, kind, sign, sign_code};

use crate::name_set::NameSet;
use crate::types::a_type;
use sql_lex::{Keyword, Symbol};
use sql_parse_tokens::fault::Stop;
use sql_parse_tokens::kinds::{FIRST_WORD, code, sign_code};
use sql_parse_tokens::opening::opening;
use sql_parse_tokens::parts::{a_name, a_value, name_but, names_in, optional_name, word_name};
use sql_parse_tokens::rest::Rest;
use sql_syntax::{Marks, TablePart};
use sql_tree::{Column, CreateTable, SqlType, UniqueKey};
use std::alloc::Global;
use val_types::{Bytes, Duplicate, List, NoMemory};

/// NULL, where neither it nor NOT NULL was given.
#[tactic(auto, using(sql_parse_tokens::proofs::Reading::only_if_is))]
fn null_mark<'t>(marks: Marks, rest: Rest<'t>) -> Result<(Marks, Rest<'t>), Stop<'t>>
    ensures { Gives (λ m. m) result ((mapped (spec.marked marks) (only_if (is_none marks.null) (mapped (λ u. spec.takes_null true) (keyword words.Null)))).read rest.entry) }
{
    if marks.null.is_some() {
        return Err(Stop::Syntax(rest));
    }
    let ((), rest) = rest.skip_key(Keyword::Null)?;
    let null = Some(true);
    Ok((Marks { null, ..marks }, rest))
}

/// NOT NULL, where neither it nor NULL was given.
#[tactic(auto, using(sql_parse_tokens::proofs::Reading::only_if_is))]
fn not_null_mark<'t>(marks: Marks, rest: Rest<'t>) -> Result<(Marks, Rest<'t>), Stop<'t>>
    ensures { Gives (λ m. m) result ((mapped (spec.marked marks) (only_if (is_none marks.null) (mapped (λ u. spec.takes_null false) (behind (keyword words.Not) (keyword words.Null))))).read rest.entry) }
{
    if marks.null.is_some() {
        return Err(Stop::Syntax(rest));
    }
    let ((), rest) = rest.skip_key(Keyword::Not)?;
    let ((), rest) = rest.skip_key(Keyword::Null)?;
    let null = Some(false);
    Ok((Marks { null, ..marks }, rest))
}

/// DEFAULT and a literal, where none was given.
#[tactic(auto, using(sql_parse_tokens::proofs::Reading::only_if_is))]
fn preset_mark<'t>(
    alloc: Global,
    marks: Marks,
    rest: Rest<'t>,
) -> Result<(Marks, Rest<'t>), Stop<'t>>
    ensures { Gives (λ m. m) result ((mapped (spec.marked marks) (only_if (is_none marks.value) (mapped spec.preset (behind (keyword words.Default) a_value)))).read rest.entry) }
{
    if marks.value.is_some() {
        return Err(Stop::Syntax(rest));
    }
    let ((), rest) = rest.skip_key(Keyword::Default)?;
    let (value, rest) = a_value(alloc, rest)?;
    let value = Some(value);
    Ok((Marks { value, ..marks }, rest))
}

/// AUTO_INCREMENT, where it was not given.
#[tactic(auto, using(sql_parse_tokens::proofs::Reading::only_if_is))]
fn counted_mark<'t>(marks: Marks, rest: Rest<'t>) -> Result<(Marks, Rest<'t>), Stop<'t>>
    ensures { Gives (λ m. m) result ((mapped (spec.marked marks) (only_if (not marks.counted) (mapped (λ u. spec.auto_increment) (keyword words.AutoIncrement)))).read rest.entry) }
{
    if marks.counted {
        return Err(Stop::Syntax(rest));
    }
    let ((), rest) = rest.skip_key(Keyword::AutoIncrement)?;
    let counted = true;
    Ok((Marks { counted, ..marks }, rest))
}

/// PRIMARY KEY, where the table has none so far.
#[tactic(auto, using(sql_parse_tokens::proofs::Reading::only_if_is))]
fn keyed_mark<'t>(
    has_key: bool,
    marks: Marks,
    rest: Rest<'t>,
) -> Result<(Marks, Rest<'t>), Stop<'t>>
    ensures { Gives (λ m. m) result ((mapped (spec.marked marks) (only_if (not (has_key || marks.keyed)) (mapped (λ u. spec.primary_key) (behind (keyword words.Primary) (keyword words.Key))))).read rest.entry) }
{
    if has_key || marks.keyed {
        return Err(Stop::Syntax(rest));
    }
    let ((), rest) = rest.skip_key(Keyword::Primary)?;
    let ((), rest) = rest.skip_key(Keyword::Key)?;
    let keyed = true;
    Ok((Marks { keyed, ..marks }, rest))
}

/// KEY or nothing.
fn optional_key<'t>(rest: Rest<'t>) -> Result<((), Rest<'t>), Stop<'t>>
    ensures { Gives (λ u. u) result ((optional kind (code words.Key ∷ []) (tt {0}) (keyword words.Key)).read rest.entry) }
{
    if rest.is_key(Keyword::Key) {
        rest.skip_key(Keyword::Key)
    } else {
        Ok(((), rest))
    }
}

/// UNIQUE and perhaps KEY, where it was not given.
#[tactic(auto, using(sql_parse_tokens::proofs::Reading::only_if_is))]
fn unique_mark<'t>(marks: Marks, rest: Rest<'t>) -> Result<(Marks, Rest<'t>), Stop<'t>>
    ensures { Gives (λ m. m) result ((mapped (spec.marked marks) (only_if (not marks.unique) (mapped (λ u. spec.unique_key) (behind (keyword words.Unique) (optional kind (code words.Key ∷ []) (tt {0}) (keyword words.Key)))))).read rest.entry) }
{
    if marks.unique {
        return Err(Stop::Syntax(rest));
    }
    let ((), rest) = rest.skip_key(Keyword::Unique)?;
    let ((), rest) = optional_key(rest)?;
    let unique = true;
    Ok((Marks { unique, ..marks }, rest))
}

/// An option that was not given before, with those so far.
fn one_mark<'t>(
    alloc: Global,
    has_key: bool,
    marks: Marks,
    rest: Rest<'t>,
) -> Result<(Marks, Rest<'t>), Stop<'t>>
    ensures { Gives (λ m. m) result ((mapped (spec.marked marks) (spec.mark has_key marks)).read rest.entry) }
{
    if rest.is_key(Keyword::Null) {
        return null_mark(marks, rest);
    }
    if rest.is_key(Keyword::Not) {
        return not_null_mark(marks, rest);
    }
    if rest.is_key(Keyword::Default) {
        return preset_mark(alloc, marks, rest);
    }
    if rest.is_key(Keyword::AutoIncrement) {
        return counted_mark(marks, rest);
    }
    if rest.is_key(Keyword::Primary) {
        return keyed_mark(has_key, marks, rest);
    }
    unique_mark(marks, rest)
}

/// What options begin with.
const MARK_WORDS: [u8; 6] = [
    FIRST_WORD + Keyword::Null as u8,
    FIRST_WORD + Keyword::Not as u8,
    FIRST_WORD + Keyword::Default as u8,
    FIRST_WORD + Keyword::AutoIncrement as u8,
    FIRST_WORD + Keyword::Primary as u8,
    FIRST_WORD + Keyword::Unique as u8,
];

/// The options of a column, each once, in a table that has a primary key so far or not.
fn all_marks<'t>(
    alloc: Global,
    has_key: bool,
    rest: Rest<'t>,
) -> Result<(Marks, Rest<'t>), Stop<'t>>
    ensures { Gives (λ m. m) result ((spec.marks has_key).read rest.entry) }
{
    let mut marks = Marks::none();
    let mut rest = rest;
    for _turn in 0..rest.len() {
        if !rest.is_in(&MARK_WORDS) {
            return Ok((marks, rest));
        }
        let (more, after) = one_mark(alloc, has_key, marks, rest)?;
        marks = more;
        rest = after;
    }
    Ok((marks, rest))
}

/// A key's name and its columns.
fn key_of<'t>(alloc: Global, depth: u32, rest: Rest<'t>) -> Result<(TablePart, Rest<'t>), Stop<'t>>
    ensures { Gives (λ p. p) result ((spec.key_of depth a_name).read rest.entry) }
{
    let (name, rest) = a_name(alloc, rest)?;
    let (columns, rest) = names_in(alloc, depth, rest)?;
    Ok((TablePart::Unique(name, columns), rest))
}

/// INDEX, a key's name, which may be INDEX itself, and its columns.
fn index_of<'t>(
    alloc: Global,
    depth: u32,
    rest: Rest<'t>,
) -> Result<(TablePart, Rest<'t>), Stop<'t>>
    ensures { Gives (λ p. p) result ((spec.index_of depth).read rest.entry) }
{
    let (index, rest) = word_name(alloc, Keyword::Index, rest)?;
    let (name, rest) = optional_name(alloc, rest)?;
    let (columns, rest) = names_in(alloc, depth, rest)?;
    Ok((TablePart::Unique(name.unwrap_or(index), columns), rest))
}

/// What stands behind UNIQUE.
fn unique_part<'t>(
    alloc: Global,
    depth: u32,
    rest: Rest<'t>,
) -> Result<(TablePart, Rest<'t>), Stop<'t>>
    ensures { Gives (λ p. p) result ((spec.unique_part depth).read rest.entry) }
{
    if rest.is_key(Keyword::Key) {
        let ((), rest) = rest.skip_key(Keyword::Key)?;
        return key_of(alloc, depth, rest);
    }
    if rest.is_key(Keyword::Index) {
        return index_of(alloc, depth, rest);
    }
    let (name, rest) = name_but(alloc, &[code(Keyword::Index)], rest)?;
    let (columns, rest) = names_in(alloc, depth, rest)?;
    Ok((TablePart::Unique(name, columns), rest))
}

/// PRIMARY KEY and its columns, where the table has none so far.
#[tactic(auto, using(sql_parse_tokens::proofs::Reading::only_if_is))]
fn primary_part<'t>(
    alloc: Global,
    depth: u32,
    has_key: bool,
    rest: Rest<'t>,
) -> Result<(TablePart, Rest<'t>), Stop<'t>>
    ensures { Gives (λ p. p) result ((only_if (not has_key) (spec.primary_part depth)).read rest.entry) }
{
    if has_key {
        return Err(Stop::Syntax(rest));
    }
    let ((), rest) = rest.skip_key(Keyword::Primary)?;
    let ((), rest) = rest.skip_key(Keyword::Key)?;
    let (columns, rest) = names_in(alloc, depth, rest)?;
    Ok((TablePart::Primary(columns), rest))
}

/// A part of a table that has a primary key so far or not.
fn table_part<'t>(
    alloc: Global,
    depth: u32,
    has_key: bool,
    rest: Rest<'t>,
) -> Result<(TablePart, Rest<'t>), Stop<'t>>
    ensures { Gives (λ p. p) result ((spec.table_part depth has_key).read rest.entry) }
{
    if rest.is_key(Keyword::Primary) {
        return primary_part(alloc, depth, has_key, rest);
    }
    if rest.is_key(Keyword::Unique) {
        let ((), rest) = rest.skip_key(Keyword::Unique)?;
        return unique_part(alloc, depth, rest);
    }
    let (name, rest) = a_name(alloc, rest)?;
    let (kind, rest) = a_type(depth, rest)?;
    let (marks, rest) = all_marks(alloc, has_key, rest)?;
    Ok((TablePart::Column(name, kind, marks), rest))
}

/// A comma and a part.
fn next_part<'t>(
    alloc: Global,
    depth: u32,
    has_key: bool,
    rest: Rest<'t>,
) -> Result<(TablePart, Rest<'t>), Stop<'t>>
    ensures { Gives (λ p. p) result ((behind (sign signs.Comma) (spec.table_part depth has_key)).read rest.entry) }
{
    let ((), rest) = rest.skip_mark(Symbol::Comma)?;
    table_part(alloc, depth, has_key, rest)
}

/// Parts with commas between, and one primary key at most.
fn table_parts<'t>(
    alloc: Global,
    depth: u32,
    rest: Rest<'t>,
) -> Result<(List<TablePart>, Rest<'t>), Stop<'t>>
    ensures { Gives (λ ps. ps) result ((spec.table_parts depth).read rest.entry) }
{
    let (first, mut rest) = table_part(alloc, depth, false, rest)?;
    let mut has_key = first.is_primary();
    let mut parts = List::new(alloc);
    parts.push(first)?;
    for _turn in 0..rest.len() {
        if !rest.is_mark(Symbol::Comma) {
            return Ok((parts, rest));
        }
        let (part, after) = next_part(alloc, depth, has_key, rest)?;
        has_key |= part.is_primary();
        parts.push(part)?;
        rest = after;
    }
    Ok((parts, rest))
}

/// The columns of the primary key.
fn key_in(alloc: Global, parts: &[TablePart]) -> Result<Option<List<Bytes>>, NoMemory>
    ensures { IfOk result (λ key. key ≡ spec.key_in parts.now) }
{
    for part in parts {
        match part {
            TablePart::Column(name, _, marks) if marks.keyed => {
                let mut columns = List::new(alloc);
                columns.push(name.duplicate(alloc)?)?;
                return Ok(Some(columns));
            }
            TablePart::Primary(columns) => return Ok(Some(columns.duplicate(alloc)?)),
            _ => {}
        }
    }
    Ok(None)
}

/// Whether a name is among these.
/// A column, which is NOT NULL where it is one of the primary key's.
fn column(
    alloc: Global,
    is_key: bool,
    name: &Bytes,
    kind: SqlType,
    marks: &Marks,
) -> Result<Column, NoMemory>
    ensures { IfOk result (λ c. c ≡ spec.column_by is_key name.now kind marks.now) }
{
    Ok(Column {
        name: name.duplicate(alloc)?,
        kind,
        nullable: marks.null.unwrap_or(true) && !is_key,
        preset: marks.value.duplicate(alloc)?,
        auto_increment: marks.counted,
    })
}

/// The columns, of which those of the primary key are NOT NULL.
fn columns_in(alloc: Global, key: &[Bytes], parts: &[TablePart]) -> Result<List<Column>, NoMemory>
    ensures { IfOk result (λ columns. columns ≡ spec.columns_in key.now parts.now) }
{
    let keys = NameSet::of(alloc, key)?;
    let mut columns = List::new(alloc);
    for part in parts {
        if let TablePart::Column(name, kind, marks) = part {
            let is_key = keys.contains(name);
            columns.push(column(alloc, is_key, name, *kind, marks)?)?;
        }
    }
    Ok(columns)
}

/// A unique key of one column, named as the column.
fn own_key(alloc: Global, name: &Bytes) -> Result<UniqueKey, NoMemory>
    ensures { IfOk result (λ k. k ≡ spec.own_key name.now) }
{
    let mut columns = List::new(alloc);
    columns.push(name.duplicate(alloc)?)?;
    let name = name.duplicate(alloc)?;
    Ok(UniqueKey { name, columns })
}

/// The unique keys, of which that of a column is named as the column.
fn uniques_in(alloc: Global, parts: &[TablePart]) -> Result<List<UniqueKey>, NoMemory>
    ensures { IfOk result (λ keys. keys ≡ spec.uniques_in parts.now) }
{
    let mut keys = List::new(alloc);
    for part in parts {
        match part {
            TablePart::Column(name, _, marks) if marks.unique => {
                keys.push(own_key(alloc, name)?)?;
            }
            TablePart::Unique(name, columns) => {
                let name = name.duplicate(alloc)?;
                let columns = columns.duplicate(alloc)?;
                keys.push(UniqueKey { name, columns })?;
            }
            _ => {}
        }
    }
    Ok(keys)
}

/// The table of this name and these parts.
fn table_of(alloc: Global, name: Bytes, parts: &[TablePart]) -> Result<CreateTable, NoMemory>
    ensures { IfOk result (λ t. t ≡ spec.table_of name parts.now) }
{
    let primary = key_in(alloc, parts)?;
    let key: &[Bytes] = match &primary {
        Some(columns) => columns.as_slice(),
        None => &[],
    };
    let columns = columns_in(alloc, key, parts)?;
    let uniques = uniques_in(alloc, parts)?;
    Ok(CreateTable {
        name,
        columns,
        primary,
        uniques,
    })
}

/// `=` or nothing.
fn optional_equal<'t>(rest: Rest<'t>) -> Result<((), Rest<'t>), Stop<'t>>
    ensures { Gives (λ u. u) result ((optional kind (sign_code signs.Equal ∷ []) (tt {0}) (sign signs.Equal)).read rest.entry) }
{
    if rest.is_mark(Symbol::Equal) {
        rest.skip_mark(Symbol::Equal)
    } else {
        Ok(((), rest))
    }
}

/// ENGINE and INNODB, which are read and dropped, or nothing.
fn engine<'t>(rest: Rest<'t>) -> Result<((), Rest<'t>), Stop<'t>>
    ensures { Gives (λ u. u) result (spec.engine.read rest.entry) }
{
    if !rest.is_key(Keyword::Engine) {
        return Ok(((), rest));
    }
    let ((), rest) = rest.skip_key(Keyword::Engine)?;
    let ((), rest) = optional_equal(rest)?;
    rest.skip_key(Keyword::Innodb)
}

/// The parts of a table up to and with the closing parenthesis.
fn closed_parts<'t>(
    alloc: Global,
    depth: u32,
    rest: Rest<'t>,
) -> Result<(List<TablePart>, Rest<'t>), Stop<'t>>
    ensures { Gives (λ ps. ps) result ((closed (spec.table_parts depth)).read rest.entry) }
{
    let (parts, rest) = table_parts(alloc, depth, rest)?;
    let ((), rest) = rest.skip_mark(Symbol::Close)?;
    Ok((parts, rest))
}

/// The parts of a table in parentheses.
fn parts_in<'t>(
    alloc: Global,
    depth: u32,
    rest: Rest<'t>,
) -> Result<(List<TablePart>, Rest<'t>), Stop<'t>>
    ensures { Gives (λ ps. ps) result ((spec.parts_in depth).read rest.entry) }
{
    let (depth, rest) = opening(depth, sign_code(Symbol::Open), rest)?;
    closed_parts(alloc, depth, rest)
}

/// Behind CREATE: a table, where so many constructs may still be opened.
pub fn table<'t>(
    alloc: Global,
    depth: u32,
    rest: Rest<'t>,
) -> Result<(CreateTable, Rest<'t>), Stop<'t>>
    ensures { Gives (λ t. t) result ((spec.table depth).read rest.entry) }
{
    let ((), rest) = rest.skip_key(Keyword::Table)?;
    let (name, rest) = a_name(alloc, rest)?;
    let (parts, rest) = parts_in(alloc, depth, rest)?;
    let table = table_of(alloc, name, parts.as_slice())?;
    let ((), rest) = engine(rest)?;
    Ok((table, rest))
}
