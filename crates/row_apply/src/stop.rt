//! Why a group is not carried out.
ghost use Rattle.std.specs.Prelude.{◌≡◌, [], IfOk};
ghost use Rattle.row_apply.specs.declared.stop.Stop.TheVariants.{Differs, NoMemory};

use sharing::Shared;
use std::alloc::Global;
use std::marker::Model;
use val_types::{Bytes, NoMemory, Row, SqlError};

/// The name of the table that an error is about, empty where it is about none. It is shared with the change that stops, so
/// that naming it takes no memory.
#[derive(Drop)]
pub struct TableName {
    shared: Option<Shared<Bytes>>,
}

impl Model for TableName {
    ghost use Rattle.std.specs.Prelude.{List, ℕ};
    ghost use Rattle.row_apply.specs.Names.{name_in};

    ghost Value = { List ℕ };

    ghost view = { λ t. name_in t.shared };
}

impl TableName {
    /// No table.
    pub fn none() -> TableName
        ensures { result ≡ [] }
    {
        TableName { shared: None }
    }

    /// That of a change.
    pub fn of(name: Shared<Bytes>) -> TableName
        ensures { result ≡ name }
    {
        TableName { shared: Some(name) }
    }

    /// A copy of the name, for what is told.
    pub fn copied(&self, alloc: Global) -> Result<Bytes, NoMemory>
        ensures { IfOk result (λ name. name ≡ self.now) }
    {
        match &self.shared {
            None => Ok(Bytes::new(alloc)),
            Some(name) => Bytes::from_slice(alloc, name.get().as_slice()),
        }
    }
}

/// Why a group is not carried out: what is read and the tables differ, or memory is short.
#[derive(Drop)]
pub enum Stop {
    /// The place in the log of the event that differs, the error's number, and the table and the primary key that it is
    /// about, empty where there is none.
    Differs {
        pos: u64,
        code: SqlError,
        table: TableName,
        key: Row,
    },
    NoMemory,
}

impl From<NoMemory> for Stop {
    ghost from_gives = { λ _ stop. stop ≡ NoMemory };

    fn from(_error: NoMemory) -> Stop {
        Stop::NoMemory
    }
}

/// An error that names no table. It takes the place in the log and the error's number, and gives the stop there, with an empty
/// name and an empty key.
pub fn stop_at(alloc: Global, pos: u64, code: SqlError) -> Stop
    ensures { result ≡ Differs pos code [] [] }
{
    Stop::Differs {
        pos,
        code,
        table: TableName::none(),
        key: Row::new(alloc),
    }
}
