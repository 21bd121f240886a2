//! Copies of the parts of statements that hold no expression, statement or SELECT.
use crate::expressions::{Count, Limit};
use crate::statements::{Column, CreateTable, Parameter, SqlType, Target, UniqueKey};
use std::alloc::Global;
use val_types::{Duplicate, NoMemory};

impl Duplicate for Count {
    fn duplicate(&self, alloc: Global) -> Result<Count, NoMemory> {
        match self {
            Count::Number(number) => Ok(Count::Number(*number)),
            Count::Name(name) => Ok(Count::Name(name.duplicate(alloc)?)),
        }
    }
}

impl Duplicate for Limit {
    fn duplicate(&self, alloc: Global) -> Result<Limit, NoMemory> {
        let count = self.count.duplicate(alloc)?;
        let offset = self.offset.duplicate(alloc)?;
        Ok(Limit { count, offset })
    }
}

impl Duplicate for SqlType {
    fn duplicate(&self, alloc: Global) -> Result<SqlType, NoMemory> {
        let _ = alloc;
        Ok(*self)
    }
}

impl Duplicate for Parameter {
    fn duplicate(&self, alloc: Global) -> Result<Parameter, NoMemory> {
        let name = self.name.duplicate(alloc)?;
        Ok(Parameter {
            name,
            kind: self.kind,
        })
    }
}

impl Duplicate for Column {
    fn duplicate(&self, alloc: Global) -> Result<Column, NoMemory> {
        Ok(Column {
            name: self.name.duplicate(alloc)?,
            kind: self.kind,
            nullable: self.nullable,
            preset: self.preset.duplicate(alloc)?,
            auto_increment: self.auto_increment,
        })
    }
}

impl Duplicate for UniqueKey {
    fn duplicate(&self, alloc: Global) -> Result<UniqueKey, NoMemory> {
        let name = self.name.duplicate(alloc)?;
        let columns = self.columns.duplicate(alloc)?;
        Ok(UniqueKey { name, columns })
    }
}

impl Duplicate for CreateTable {
    fn duplicate(&self, alloc: Global) -> Result<CreateTable, NoMemory> {
        Ok(CreateTable {
            name: self.name.duplicate(alloc)?,
            columns: self.columns.duplicate(alloc)?,
            primary: self.primary.duplicate(alloc)?,
            uniques: self.uniques.duplicate(alloc)?,
        })
    }
}

impl Duplicate for Target {
    fn duplicate(&self, alloc: Global) -> Result<Target, NoMemory> {
        match self {
            Target::User(name) => Ok(Target::User(name.duplicate(alloc)?)),
            Target::Plain(name) => Ok(Target::Plain(name.duplicate(alloc)?)),
            Target::System(name) => Ok(Target::System(name.duplicate(alloc)?)),
            Target::New(name) => Ok(Target::New(name.duplicate(alloc)?)),
        }
    }
}
