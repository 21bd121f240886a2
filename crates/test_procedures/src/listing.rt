//! A runner that keeps a list of what it is asked.
ghost use Rattle.std.specs.Prelude.{◌≡◌};

use proc_model::Ruled;
use proc_parts::{RunRefusal, Runner};
use prog_run::{Meter, Outcome};
use sharing::Shared;
use sql_locals::Locals;
use sql_print::print;
use sql_tree::Stmt;
use std::alloc::Global;
use val_types::{Bytes, List, NoMemory, Row, SqlError, Value};

/// What is told of a statement or of expressions.
#[derive(Clone, Copy)]
pub enum Told {
    /// So many rows were affected.
    Did(u64),
    /// A row of one number is shown.
    Shows(i64),
    /// The value of one expression.
    Gives(i64),
    /// The values of two.
    GivesTwo(i64, i64),
    /// An error.
    Refuses(SqlError),
    /// A device fails.
    Fails,
}

/// The error that is told where another answer was prepared, or none.
const UNPREPARED: SqlError = 1105;

/// The answers to come, and the texts of what was asked: of a statement, of the DO over expressions, or the name of a user
/// variable.
#[derive(Drop)]
pub struct Listing {
    alloc: Global,
    told: List<Told>,
    pub asked: List<Bytes>,
    faults: u64,
}

impl Listing {
    /// A runner that was asked nothing.
    pub fn new(alloc: Global, told: &[Told]) -> Result<Listing, NoMemory> {
        Ok(Listing {
            alloc,
            told: List::from_slice(alloc, told)?,
            asked: List::new(alloc),
            faults: 0,
        })
    }

    /// Keeps the text of a statement.
    fn keep(&mut self, s: &Stmt) -> Result<(), NoMemory>
        ensures { self.new.faults ≡ self.old.faults }
    {
        let text = print(self.alloc, s)?;
        self.asked.push(text)
    }

    /// The next prepared answer.
    fn next(&mut self) -> Told
        ensures { self.new.faults ≡ self.old.faults }
    {
        if self.told.is_empty() {
            return Told::Refuses(UNPREPARED);
        }
        self.told.remove(0)
    }
}

/// What is told of a statement that showed a row of one number.
fn shown(alloc: Global, number: i64) -> Result<Outcome, NoMemory> {
    let mut row: Row = List::new(alloc);
    row.push(Value::Int(number))?;
    let mut rows = List::new(alloc);
    rows.push(Shared::new(alloc, row)?)?;
    Ok(Outcome {
        affected: 0,
        rows: Some(rows),
        first: None,
    })
}

/// Some numbers as values.
fn numbers(alloc: Global, given: &[i64]) -> Result<List<Value>, NoMemory> {
    let mut values = List::new(alloc);
    for number in given {
        values.push(Value::Int(*number))?;
    }
    Ok(values)
}

/// An error without the number of a session.
fn refusal(code: SqlError) -> RunRefusal
    ensures { result ≡ RunRefusal.Sql code None }
{
    RunRefusal::Sql { code, holder: None }
}

impl Ruled for Listing {
    ghost rules = { record {
      ran = λ before left s told after. Unit {0};
      gave = λ before left locals ts told after. Unit {0};
      assigned = λ before n v after. Unit {0};
    } };
}

impl Runner for Listing {
    ghost faults = { λ l. l.faults };

    fn run(&mut self, s: &Stmt, _m: &mut Meter) -> Result<Outcome, RunRefusal> {
        self.keep(s)?;
        match self.next() {
            Told::Did(affected) => Ok(Outcome {
                affected,
                rows: None,
                first: None,
            }),
            Told::Shows(number) => Ok(shown(self.alloc, number)?),
            Told::Refuses(code) => Err(refusal(code)),
            Told::Fails => {
                self.faults = self.faults.saturating_add(1);
                Err(RunRefusal::Device)
            }
            _ => Err(refusal(UNPREPARED)),
        }
    }

    fn eval(
        &mut self,
        s: &Stmt,
        _locals: &Locals,
        _m: &mut Meter,
    ) -> Result<List<Value>, RunRefusal> {
        self.keep(s)?;
        match self.next() {
            Told::Gives(number) => Ok(numbers(self.alloc, &[number])?),
            Told::GivesTwo(first, second) => Ok(numbers(self.alloc, &[first, second])?),
            Told::Refuses(code) => Err(refusal(code)),
            Told::Fails => {
                self.faults = self.faults.saturating_add(1);
                Err(RunRefusal::Device)
            }
            _ => Err(refusal(UNPREPARED)),
        }
    }

    fn assign(&mut self, name: &Bytes, _value: Value) -> Result<(), NoMemory> {
        let copy = List::from_slice(self.alloc, name.as_slice())?;
        self.asked.push(copy)
    }
}
