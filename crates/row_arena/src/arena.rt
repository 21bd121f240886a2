//! Rows by their numbers.
ghost use Rattle.std.specs.Prelude.{◌≡◌, ◌+◌, ◌^◌, ◌<◌, ◌≤◌, [], length, slice_get, slice_set, option_copied, Option, Some, None, IsSome, OnOk};
ghost use Rattle.std.specs.Option.{option_and_then};
ghost use Rattle.row_arena.specs.Arenas.{IsFree, with_row_at};

use sharing::Shared;
use std::alloc::Global;
use std::marker::Model;
use val_types::{NoMemory, Row};

/// Rows, each under a number that it keeps, and the numbers that are free again.
#[derive(Drop)]
pub struct RowArena {
    pub(crate) rows: Vec<Option<Shared<Row>>>,
    pub(crate) free: Vec<u32>,
}

impl Model for RowArena {
    ghost use Rattle.std.specs.Prelude.{◌≡◌, ◌+◌, ◌-◌, ◌^◌, ◌≤◌, min, length, vec_capacity, vec_len};
    ghost use Rattle.row_arena.specs.Arenas.{Arena, AreFree, count};

    ghost Value = { Arena };

    ghost view = { λ a. record {
      rows = a.rows.items;
      room = vec_len a.free + (min (vec_capacity a.rows) (min (vec_capacity a.free) (2 ^ 32)) - vec_len a.rows);
    } };

    ghost invariant = { λ a. record {
      are_free : AreFree a.rows.items a.free.items;
      counted : vec_len a.free + count a.rows.items ≡ vec_len a.rows;
      fits : vec_len a.rows ≤ vec_capacity a.free;
      few : vec_len a.rows ≤ 2 ^ 32;
    } };
}

impl RowArena {
    /// No rows, which take no memory until there is to be room for some.
    pub fn new(alloc: Global) -> RowArena
        ensures { result.rows ≡ [] }
    {
        RowArena {
            rows: Vec::new(alloc),
            free: Vec::new(alloc),
        }
    }

    /// How many numbers there are: those of rows, and those that are free again.
    pub fn len(&self) -> usize
        ensures count { result ≡ length self.now.rows }
        ensures few { result ≤ 2 ^ 32 }
    {
        self.rows.len()
    }

    /// The row of a number, for those who hold it on.
    pub fn shared(&self, number: u32) -> Option<&Shared<Row>>
        ensures { option_copied result ≡ option_and_then (λ row. row) (slice_get self.now.rows number) }
    {
        match self.rows.get(number as usize) {
            Some(Some(row)) => Some(row),
            _ => None,
        }
    }

    /// The row of a number.
    pub fn get(&self, number: u32) -> Option<&Row>
        ensures { option_copied result ≡ option_and_then (λ row. row) (slice_get self.now.rows number) }
    {
        match self.rows.get(number as usize) {
            Some(Some(row)) => Some(row.get()),
            _ => None,
        }
    }

    /// Puts a row under a number that is free, which takes no memory.
    pub fn put(&mut self, row: Shared<Row>) -> u32
        requires { 0 < self.old.room }
        ensures free { IsFree self.old.rows result }
        ensures within { result ≤ length self.old.rows }
        ensures rows { self.new.rows ≡ with_row_at self.old.rows result row }
        ensures room { self.old.room ≤ self.new.room + 1 }
    {
        match self.free.pop() {
            Some(number) => {
                self.rows[number as usize] = Some(row);
                number
            }
            None => {
                let number = self.rows.len() as u32;
                self.rows.push_reserved(Some(row));
                number
            }
        }
    }

    /// Puts a row in the place of that of a number, and answers with that one.
    pub fn replace(&mut self, number: u32, row: Shared<Row>) -> Option<Shared<Row>>
        requires { IsSome (option_and_then (λ row. row) (slice_get self.old.rows number)) }
        ensures row { result ≡ option_and_then (λ row. row) (slice_get self.old.rows number) }
        ensures rows { self.new.rows ≡ slice_set self.old.rows number (Some row) }
        ensures room { self.new.room ≡ self.old.room }
    {
        self.rows[number as usize].replace(row)
    }

    /// Takes the row of a number out, after which the number is free.
    pub fn take(&mut self, number: u32) -> Option<Shared<Row>>
        ensures row { result ≡ option_and_then (λ row. row) (slice_get self.old.rows number) }
        ensures rows { self.new.rows ≡ slice_set self.old.rows number None }
        ensures room { self.old.room ≤ self.new.room }
    {
        if number as usize >= self.rows.len() {
            return None;
        }
        let row = self.rows[number as usize].take()?;
        self.free.push_reserved(number);
        Some(row)
    }

    /// Makes room for so many more rows. Where there is no memory, there may be more room than before.
    pub fn make_room(&mut self, more: usize) -> Result<(), NoMemory>
        requires { length self.old.rows + more ≤ 2 ^ 32 }
        ensures made { OnOk result (more ≤ self.new.room) }
        ensures rows { self.new.rows ≡ self.old.rows }
        ensures room { self.old.room ≤ self.new.room }
    {
        let needed = more.saturating_sub(self.free.len());
        self.free
            .reserve(self.rows.len() - self.free.len() + needed)?;
        self.rows.reserve(needed)
    }
}
