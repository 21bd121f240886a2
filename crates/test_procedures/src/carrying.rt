//! A catalog made of texts, and a CALL in it.
use crate::listing::{Listing, Told};
use answer_text::{Answer, End};
use catalog::Catalog;
use proc_run::{CallRefusal, call};
use prog_run::Meter;
use sql_parse::{ParseRefusal, parse};
use sql_tree::{Routine, Stmt};
use std::alloc::Global;
use tree_copies::copy_routine;
use val_types::{Boxed, List, NoMemory, SqlError, Value};

/// How a CALL should end.
#[derive(Clone, Copy)]
pub enum Ends {
    /// So many rows were affected.
    Affected(u64),
    /// An error.
    Refused(SqlError),
    /// A device failed.
    Failed,
}

/// A CALL: what it begins with, and what it should come to.
#[derive(Clone, Copy)]
pub struct Trial<'a> {
    /// The statements that make the procedures and tables.
    pub made: &'a [&'a str],
    /// The procedure that is called, and its arguments.
    pub name: &'a str,
    pub arguments: &'a [i64],
    /// How many turns of WHILE are left.
    pub turns: u32,
    /// What the runner tells, and what it should be asked.
    pub told: &'a [Told],
    pub asked: &'a [&'a str],
    /// How many sets of rows should be shown, how the CALL should end, and how many turns should be left.
    pub sets: usize,
    pub ends: Ends,
    pub left: u32,
}

/// What a text is read as. No text here is as long as those that are not read.
fn read(alloc: Global, text: &str) -> Result<Stmt, ParseRefusal> {
    if text.len() > 4_294_967_295 {
        return Err(ParseRefusal::NoMemory);
    }
    parse(alloc, text.as_bytes())
}

/// What makes an object of itself. Functions that hold a statement are over this, since the borrows of one that holds a statement
/// are dear to check.
trait Made {
    /// Whether a copy of it makes its object.
    fn is_added(&self, alloc: Global, catalog: &mut Catalog) -> bool;
}

/// Whether a copy of a procedure is made.
fn is_procedure_added(
    alloc: Global,
    catalog: &mut Catalog,
    routine: &Routine,
) -> Result<bool, NoMemory> {
    let copy = copy_routine(alloc, routine)?;
    let boxed = Boxed::new(alloc, copy)?;
    Ok(catalog.add_procedure(boxed).is_ok())
}

impl Made for Stmt {
    fn is_added(&self, alloc: Global, catalog: &mut Catalog) -> bool {
        match self {
            Stmt::CreateTable(table) => catalog.add_table(table).is_ok(),
            Stmt::CreateProcedure(routine) => {
                matches!(is_procedure_added(alloc, catalog, routine.get()), Ok(true))
            }
            _ => false,
        }
    }
}

fn added<T: Made + Drop>(
    alloc: Global,
    catalog: &mut Catalog,
    answer: Result<T, ParseRefusal>,
) -> bool {
    match answer {
        Ok(s) => s.is_added(alloc, catalog),
        Err(_) => false,
    }
}

/// Whether all statements made their objects.
fn are_made(alloc: Global, catalog: &mut Catalog, texts: &[&str]) -> bool {
    for text in texts {
        if !added(alloc, catalog, read(alloc, text)) {
            return false;
        }
    }
    true
}

/// Whether an answer is as it should be.
fn is_answer(answer: &Result<Answer, CallRefusal>, sets: usize, ends: Ends) -> bool {
    match (answer, ends) {
        (Ok(answer), Ends::Affected(count)) => {
            answer.sets.len() == sets
                && matches!(&answer.end, End::Ok { affected, warned: false } if *affected == count)
        }
        (Ok(answer), Ends::Refused(error)) => {
            answer.sets.len() == sets
                && matches!(&answer.end, End::Refused { code, at: None, holder: None } if *code == error)
        }
        (Err(CallRefusal::Device), Ends::Failed) => true,
        _ => false,
    }
}

/// Whether just some texts were asked.
fn was_asked(runner: &Listing, texts: &[&str]) -> bool {
    if runner.asked.len() != texts.len() {
        return false;
    }
    for (text, wanted) in runner.asked.as_slice().iter().zip(texts) {
        if text.as_slice() != wanted.as_bytes() {
            return false;
        }
    }
    true
}

/// Whether a CALL comes to what it should.
pub fn comes_out(alloc: Global, trial: &Trial<'_>) -> Result<bool, NoMemory> {
    let mut catalog = Catalog::new(alloc);
    if !are_made(alloc, &mut catalog, trial.made) {
        return Ok(false);
    }
    let mut runner = Listing::new(alloc, trial.told)?;
    let name = List::from_slice(alloc, trial.name.as_bytes())?;
    let mut values = List::new(alloc);
    for number in trial.arguments {
        values.push(Value::Int(*number))?;
    }
    let mut meter = Meter {
        depth: 16,
        turns: trial.turns,
        uuids: 0,
    };
    let answer = call(alloc, &mut runner, &catalog, &name, values, &mut meter);
    Ok(
        is_answer(&answer, trial.sets, trial.ends)
            && was_asked(&runner, trial.asked)
            && meter.turns == trial.left,
    )
}
