//! A table of two numbers a row, the first of them its primary key, beside the values that it has to show and to have committed of each
//! key. Each call says whether the table answered as these say.

use crate::{found, found_with};
use sharing::Shared;
use std::alloc::Global;
use std::test::Fail;
use table_sheet::{Sheet, SheetRefusal};
use val_types::{Bytes, ColType, ColumnDef, KeyDef, List, Row, TableDef, Value};

/// A row.
#[derive(Clone, Copy, PartialEq, Eq)]
pub(super) struct Two {
    pub key: i64,
    pub value: i64,
}

/// A table, and the value of each key that it has to show, to have committed, and showed when a transaction last went on.
#[derive(Drop)]
pub(super) struct Beside {
    pub sheet: Sheet,
    pub shown: Vec<Option<i64>>,
    pub committed: Vec<Option<i64>>,
    pub marked: Vec<Option<i64>>,
    /// Whether no two rows may have the same value.
    pub unique: bool,
}

fn name(alloc: Global, of: &[u8]) -> Result<Bytes, Fail> {
    Ok(List::from_slice(alloc, of)?)
}

fn columns(alloc: Global) -> Result<List<ColumnDef>, Fail> {
    let mut columns = List::new(alloc);
    for of in [b"id", b"no"] {
        columns.push(ColumnDef {
            name: name(alloc, of)?,
            kind: ColType::BigInt,
            nullable: true,
            preset: None,
        })?;
    }
    Ok(columns)
}

fn uniques(alloc: Global, unique: bool) -> Result<List<KeyDef>, Fail> {
    let mut uniques = List::new(alloc);
    if unique {
        uniques.push(KeyDef {
            name: name(alloc, b"u")?,
            columns: List::from_slice(alloc, &[1])?,
        })?;
    }
    Ok(uniques)
}

fn definition(alloc: Global, unique: bool) -> Result<Shared<TableDef>, Fail> {
    let uniques = uniques(alloc, unique)?;
    let columns = columns(alloc)?;
    let definition = TableDef {
        name: name(alloc, b"t")?,
        columns,
        primary: List::from_slice(alloc, &[0])?,
        uniques,
        auto: None,
    };
    Ok(Shared::new(alloc, definition)?)
}

/// A row of two numbers.
fn row_of(alloc: Global, two: Two) -> Result<Shared<Row>, Fail> {
    let mut row = List::new(alloc);
    row.push(Value::Int(two.key))?;
    row.push(Value::Int(two.value))?;
    Ok(Shared::new(alloc, row)?)
}

/// A row of a number and a NULL.
fn row_without(alloc: Global, of: i64) -> Result<Shared<Row>, Fail> {
    let mut row = List::new(alloc);
    row.push(Value::Int(of))?;
    row.push(Value::Null)?;
    Ok(Shared::new(alloc, row)?)
}

/// The number that a row begins with.
fn number_of(row: Option<&Shared<Row>>) -> Option<i64> {
    match row?.get().get(0) {
        Some(Value::Int(number)) => Some(*number),
        _ => None,
    }
}

/// A key of one number.
fn key(alloc: Global, of: i64) -> Result<Row, Fail> {
    let mut key = List::new(alloc);
    key.push(Value::Int(of))?;
    Ok(key)
}

/// The value of a key, None where there is no row of it.
fn value_of(values: &Vec<Option<i64>>, of: i64) -> Option<i64> {
    let at = usize::try_from(of).ok()?;
    *values.get(at)?
}

/// Sets the value of a key.
fn set(values: &mut Vec<Option<i64>>, of: i64, value: Option<i64>) {
    if let Ok(at) = usize::try_from(of) {
        if let Some(place) = values.get_mut(at) {
            *place = value;
        }
    }
}

/// The same values once more.
fn again(alloc: Global, values: &Vec<Option<i64>>) -> Result<Vec<Option<i64>>, Fail> {
    let mut copy = Vec::new(alloc);
    copy.extend_from_slice(values.as_slice())?;
    Ok(copy)
}

/// The number of the first key that is in the way of a row, beside the row of another key.
fn in_way(values: &Vec<Option<i64>>, unique: bool, two: Two, beside: Option<i64>) -> Option<usize> {
    if beside != Some(two.key) && value_of(values, two.key).is_some() {
        return Some(0);
    }
    if !unique {
        return None;
    }
    for (of, value) in values.as_slice().iter().enumerate() {
        if *value == Some(two.value) && beside != Some(of as i64) {
            return Some(1);
        }
    }
    None
}

/// Whether a row is that of a key and its value.
fn is_row(row: &Row, of: i64, value: i64) -> bool {
    row.get(0) == Some(&Value::Int(of)) && row.get(1) == Some(&Value::Int(value))
}

/// Whether there is a row of a key where it has a value, and it is that.
fn is_that(row: Option<&Shared<Row>>, of: i64, value: Option<i64>) -> bool {
    match (row, value) {
        (Some(row), Some(value)) => is_row(row.get(), of, value),
        (None, None) => true,
        _ => false,
    }
}

/// Whether rows are just those of the values.
fn are_just(rows: &List<Shared<Row>>, values: &Vec<Option<i64>>) -> bool {
    let mut next = 0usize;
    for (of, value) in values.as_slice().iter().enumerate() {
        if let Some(value) = *value {
            match rows.get(next) {
                Some(row) if is_row(row.get(), of as i64, value) => next = next.saturating_add(1),
                _ => return false,
            }
        }
    }
    next == rows.len()
}

impl Beside {
    /// A table without rows, of keys below a bound.
    pub(super) fn new(alloc: Global, unique: bool, bound: i64) -> Result<Beside, Fail> {
        let mut none = Vec::new(alloc);
        for _ in 0..bound {
            none.push(None)?;
        }
        let shown = again(alloc, &none)?;
        Ok(Beside {
            sheet: Sheet::new(alloc, definition(alloc, unique)?),
            shown,
            committed: again(alloc, &none)?,
            marked: none,
            unique,
        })
    }

    /// Whether a row has to be shown: just this one, or one of its key.
    pub(super) fn has(&self, two: Two, by_key: bool) -> bool {
        match value_of(&self.shown, two.key) {
            Some(value) => by_key || value == two.value,
            None => false,
        }
    }

    /// The row of a key, or another one where there is none.
    pub(super) fn standing(&self, of: i64) -> Two {
        Two {
            key: of,
            value: value_of(&self.shown, of).unwrap_or(0),
        }
    }

    /// Whether this is the answer to a row put in the place of another or of none; then it is shown.
    fn is_put(&mut self, answer: Result<(), SheetRefusal>, of: Option<i64>, two: Two) -> bool {
        if let Some(which) = in_way(&self.shown, self.unique, two, of) {
            return answer == Err(SheetRefusal::Taken { which });
        }
        if let Some(of) = of {
            set(&mut self.shown, of, None);
        }
        set(&mut self.shown, two.key, Some(two.value));
        answer.is_ok()
    }

    /// Inserts a row.
    pub(super) fn insert(&mut self, alloc: Global, two: Two) -> Result<bool, Fail> {
        let row = row_of(alloc, two)?;
        if !self.sheet.fits(row.get()) {
            return Ok(false);
        }
        let answer = self.sheet.insert(alloc, row);
        Ok(self.is_put(answer, None, two))
    }

    /// Replaces the row of a key.
    pub(super) fn replace(&mut self, alloc: Global, of: i64, two: Two) -> Result<bool, Fail> {
        let row = row_of(alloc, two)?;
        if !self.sheet.fits(row.get()) {
            return Ok(false);
        }
        let answer = self.sheet.replace(alloc, &key(alloc, of)?, row);
        if value_of(&self.shown, of).is_none() {
            return Ok(answer == Err(SheetRefusal::Absent));
        }
        Ok(self.is_put(answer, Some(of), two))
    }

    /// Replaces a row that stands just so.
    pub(super) fn replace_same(&mut self, alloc: Global, old: Two, two: Two) -> Result<bool, Fail> {
        let row = row_of(alloc, two)?;
        if !self.sheet.fits(row.get()) {
            return Ok(false);
        }
        let standing = row_of(alloc, old)?;
        let answer = self.sheet.replace_same(alloc, standing.get(), row);
        if !self.has(old, false) {
            return Ok(answer == Err(SheetRefusal::Absent));
        }
        Ok(self.is_put(answer, Some(old.key), two))
    }

    /// Takes a row out that stands just so, or that of its key.
    pub(super) fn take(&mut self, alloc: Global, two: Two, by_key: bool) -> Result<bool, Fail> {
        let answer = if by_key {
            self.sheet.delete(alloc, &key(alloc, two.key)?)
        } else {
            self.sheet.remove_same(alloc, row_of(alloc, two)?.get())
        };
        if !self.has(two, by_key) {
            return Ok(answer == Err(SheetRefusal::Absent));
        }
        set(&mut self.shown, two.key, None);
        Ok(answer.is_ok())
    }

    /// Inserts a row and takes that back; whether the table took it as the values say.
    pub(super) fn insert_in_vain(&mut self, alloc: Global, two: Two) -> Result<bool, Fail> {
        let row = row_of(alloc, two)?;
        if !self.sheet.fits(row.get()) {
            return Ok(false);
        }
        let same = row.share()?;
        let is_free = in_way(&self.shown, self.unique, two, None).is_none();
        match self.sheet.insert(alloc, row) {
            Ok(()) => {
                self.sheet.take_same(same.get());
                Ok(is_free)
            }
            Err(_) => Ok(!is_free),
        }
    }

    /// Takes a row out and takes that back; whether the table had it as the values say.
    pub(super) fn take_in_vain(&mut self, alloc: Global, two: Two) -> Result<bool, Fail> {
        let row = row_of(alloc, two)?;
        if self.sheet.remove_same(alloc, row.get()).is_err() {
            return Ok(!self.has(two, false));
        }
        if !self.sheet.fits(row.get()) || self.sheet.key_in_way(row.get()).is_some() {
            return Ok(false);
        }
        self.sheet.put_back_row(row);
        Ok(self.has(two, false))
    }

    /// Makes what is shown the committed rows.
    pub(super) fn settle(&mut self, alloc: Global) -> Result<(), Fail> {
        self.sheet.settle(alloc);
        self.committed = again(alloc, &self.shown)?;
        Ok(())
    }

    /// Makes the committed rows what is shown.
    pub(super) fn forget(&mut self, alloc: Global) -> Result<(), Fail> {
        self.sheet.forget(alloc);
        self.shown = again(alloc, &self.committed)?;
        Ok(())
    }

    /// Marks what is shown.
    pub(super) fn mark(&mut self, alloc: Global) -> Result<(), Fail> {
        self.marked = again(alloc, &self.shown)?;
        Ok(())
    }

    /// Brings back what was marked, row by row: first what is no more is taken out, then what was is put.
    pub(super) fn back(&mut self, alloc: Global) -> Result<bool, Fail> {
        let marked = again(alloc, &self.marked)?;
        for (of, value) in marked.as_slice().iter().enumerate() {
            let standing = self.standing(of as i64);
            if *value != value_of(&self.shown, of as i64) && self.has(standing, true) {
                if !self.take(alloc, standing, of % 2 == 0)? {
                    return Ok(false);
                }
            }
        }
        for (of, value) in marked.as_slice().iter().enumerate() {
            if let Some(value) = *value {
                let two = Two {
                    key: of as i64,
                    value,
                };
                if !self.has(two, false) && !self.insert(alloc, two)? {
                    return Ok(false);
                }
            }
        }
        Ok(true)
    }

    /// Whether the table shows just the rows that it has to, has as many, the same first and last one, and has just those committed.
    pub(super) fn agrees(&self, alloc: Global) -> Result<bool, Fail> {
        let rows = self.sheet.rows(alloc)?;
        let committed = self.sheet.committed_rows(alloc)?;
        Ok(
            are_just(&rows, &self.shown)
                && are_just(&committed, &self.committed)
                && self.sheet.count() == rows.len()
                && is_same(self.sheet.first(), rows.get(0))
                && is_same(self.sheet.last(), rows.get(rows.len().saturating_sub(1))),
        )
    }

    /// Whether each key is found with its value, or not at all.
    pub(super) fn finds(&self, alloc: Global) -> Result<bool, Fail> {
        for (of, value) in self.shown.as_slice().iter().enumerate() {
            let its_key = key(alloc, of as i64)?;
            if !is_that(self.sheet.get(&its_key), of as i64, *value)
                || !is_that(found(&self.sheet, &its_key), of as i64, *value)
            {
                return Ok(false);
            }
        }
        Ok(true)
    }

    /// The key of the row that is shown with a value.
    pub(super) fn key_with(&self, alloc: Global, value: i64) -> Result<Option<i64>, Fail> {
        let row = row_of(alloc, Two { key: 0, value })?;
        Ok(number_of(self.sheet.row_on_key(row.get(), 1)))
    }

    /// The same where it is found by the value as that of the key of a number.
    pub(super) fn key_by(
        &self,
        alloc: Global,
        which: usize,
        value: i64,
    ) -> Result<Option<i64>, Fail> {
        let values = key(alloc, value)?;
        Ok(number_of(found_with(&self.sheet, which, &values)))
    }

    /// Whether no row is found by a NULL, by no value, or by two.
    pub(super) fn finds_none(&self, alloc: Global) -> Result<bool, Fail> {
        let mut values = List::new(alloc);
        let by_none = found_with(&self.sheet, 1, &values).is_none();
        values.push(Value::Null)?;
        let by_null = found_with(&self.sheet, 1, &values).is_none();
        values.push(Value::Int(20))?;
        Ok(by_none && by_null && found_with(&self.sheet, 1, &values).is_none())
    }

    /// The key of the committed row with a value, found while what is shown is set aside.
    pub(super) fn key_aside(&mut self, alloc: Global, value: i64) -> Result<Option<i64>, Fail> {
        let overlay = self.sheet.set_aside(alloc);
        let key = self.key_with(alloc, value);
        self.sheet.put_back(overlay);
        key
    }

    /// Whether a row without a value is inserted.
    pub(super) fn insert_null(&mut self, alloc: Global, of: i64) -> Result<bool, Fail> {
        let row = row_without(alloc, of)?;
        if !self.sheet.fits(row.get()) {
            return Ok(false);
        }
        Ok(self.sheet.insert(alloc, row).is_ok())
    }

    /// Whether a row is found by a NULL.
    pub(super) fn is_null_found(&self, alloc: Global) -> Result<bool, Fail> {
        let row = row_without(alloc, 0)?;
        Ok(self.sheet.row_on_key(row.get(), 1).is_some())
    }

    /// Whether a reader sees the committed rows while what is shown is set aside, and the same as before is shown once it is put back.
    pub(super) fn aside(&mut self, alloc: Global) -> Result<bool, Fail> {
        let overlay = self.sheet.set_aside(alloc);
        let rows = self.sheet.rows(alloc);
        self.sheet.put_back(overlay);
        Ok(are_just(&rows?, &self.committed) && self.agrees(alloc)?)
    }
}

/// Whether two rows are the same, or there is none.
fn is_same(row: Option<&Shared<Row>>, other: Option<&Shared<Row>>) -> bool {
    match (row, other) {
        (Some(row), Some(other)) => row.get() == other.get(),
        (None, None) => true,
        _ => false,
    }
}
