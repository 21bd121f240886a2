//! Definitions of tables: columns, their types, and keys.
ghost use Rattle.std.specs.Prelude.{◌≡◌, IfOk};

use crate::duplicate::Duplicate;
use crate::list::{Bytes, List, NoMemory};
use crate::value::Value;
use std::alloc::Global;

/// The type of a column, a parameter, a result or a local variable.
#[derive(Clone, Copy, PartialEq, Eq)]
pub enum ColType {
    /// A signed number of 32 bits.
    Int,
    /// A signed number of 64 bits.
    BigInt,
    /// A text of at most so many bytes.
    Varchar(u16),
}

/// A column of a table.
#[derive(PartialEq, Eq, Drop)]
pub struct ColumnDef {
    pub name: Bytes,
    pub kind: ColType,
    /// Whether a stored row may hold NULL here.
    pub nullable: bool,
    /// The value behind DEFAULT, None where there is no DEFAULT.
    pub preset: Option<Value>,
}

/// A unique key beside the primary one.
#[derive(PartialEq, Eq, Drop)]
pub struct KeyDef {
    pub name: Bytes,
    /// The key's columns in its own order, counted from 0.
    pub columns: List<u16>,
}

/// A table: its columns and keys.
#[derive(PartialEq, Eq, Drop)]
pub struct TableDef {
    pub name: Bytes,
    pub columns: List<ColumnDef>,
    /// The columns of the primary key in its own order, counted from 0.
    pub primary: List<u16>,
    /// The unique keys in order of definition.
    pub uniques: List<KeyDef>,
    /// The AUTO_INCREMENT column, counted from 0.
    pub auto: Option<u16>,
}

impl Duplicate for ColType {
    fn duplicate(&self, alloc: Global) -> Result<ColType, NoMemory> {
        let _ = alloc;
        Ok(*self)
    }
}

impl Duplicate for ColumnDef {
    fn duplicate(&self, alloc: Global) -> Result<ColumnDef, NoMemory> {
        Ok(ColumnDef {
            name: self.name.duplicate(alloc)?,
            kind: self.kind,
            nullable: self.nullable,
            preset: self.preset.duplicate(alloc)?,
        })
    }
}

impl Duplicate for KeyDef {
    fn duplicate(&self, alloc: Global) -> Result<KeyDef, NoMemory> {
        Ok(KeyDef {
            name: self.name.duplicate(alloc)?,
            columns: self.columns.duplicate(alloc)?,
        })
    }
}

impl Duplicate for TableDef {
    fn duplicate(&self, alloc: Global) -> Result<TableDef, NoMemory> {
        Ok(TableDef {
            name: self.name.duplicate(alloc)?,
            columns: self.columns.duplicate(alloc)?,
            primary: self.primary.duplicate(alloc)?,
            uniques: self.uniques.duplicate(alloc)?,
            auto: self.auto.duplicate(alloc)?,
        })
    }
}
