//! The parts of a table, as they are written.
ghost use Rattle.std.specs.Prelude.{◌≡◌};
ghost use Rattle.sql_syntax.specs.Tables as spec;

use sql_tree::SqlType;
use val_types::{Bytes, List, Value};

/// The options of a column.
#[derive(Drop)]
pub struct Marks {
    /// Some(true) for NULL, Some(false) for NOT NULL.
    pub null: Option<bool>,
    /// The literal behind DEFAULT.
    pub value: Option<Value>,
    /// AUTO_INCREMENT
    pub counted: bool,
    /// PRIMARY KEY
    pub keyed: bool,
    /// UNIQUE
    pub unique: bool,
}

impl Marks {
    /// No option.
    pub fn none() -> Marks
        ensures { result ≡ spec.no_marks }
    {
        Marks {
            null: None,
            value: None,
            counted: false,
            keyed: false,
            unique: false,
        }
    }
}

/// A part of a table.
#[derive(Drop)]
pub enum TablePart {
    Column(Bytes, SqlType, Marks),
    /// The columns of the primary key.
    Primary(List<Bytes>),
    /// The name and the columns of a unique key.
    Unique(Bytes, List<Bytes>),
}

impl TablePart {
    /// Whether the part gives the table its primary key.
    pub fn is_primary(&self) -> bool
        ensures { result ≡ spec.is_primary self.now }
    {
        match self {
            TablePart::Column(_, _, marks) => marks.keyed,
            TablePart::Primary(_) => true,
            TablePart::Unique(_, _) => false,
        }
    }
}
