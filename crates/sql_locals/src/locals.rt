//! The local variables in scope in a stored program.
ghost use Rattle.std.specs.Prelude.{◌≡◌, ◌++◌, ◌<◌, [], ◌∷◌, is_some, length, take, IfSome, IsTrue, OnErr, OnOk};
ghost use Rattle.std.specs.List.{list_all};
ghost use Rattle.std.specs.Option.{option_copied};
ghost use Rattle.val_types.specs.declared.value.Value.{Value as SqlValue};
ghost use Rattle.sql_tree.specs.Well.{is_literal};
ghost use Rattle.sql_locals.specs.Locals.{find_local, has_literal, last_place, set_local};

use std::alloc::Global;
use std::marker::Model;
use val_types::{Bytes, ColType, NoMemory, Value};

/// A local variable or parameter with its type and its value.
#[derive(Drop)]
pub struct Local {
    pub name: Bytes,
    pub kind: ColType,
    pub value: Value,
}

/// Local variables, the outer ones first. The last one of a name counts.
#[derive(Drop)]
pub struct Locals {
    list: Vec<Local>,
}

impl Model for Locals {
    ghost use Rattle.std.specs.Prelude.{IsTrue, List};
    ghost use Rattle.std.specs.List.{list_all};
    ghost use Rattle.sql_locals.specs.declared.locals.Local.{Local};
    ghost use Rattle.sql_locals.specs.Locals.{has_literal};

    ghost Value = { List Local };

    ghost view = { λ l. l.list.items };

    // each holds what a literal can say
    ghost invariant = { λ l. IsTrue (list_all has_literal l.list.items) };
}

impl Locals {
    /// No local variables, as in a session.
    pub fn new(alloc: Global) -> Locals
        ensures { result ≡ [] }
    {
        Locals {
            list: Vec::new(alloc),
        }
    }

    /// How many there are.
    pub fn count(&self) -> usize
        ensures { result ≡ length self.now }
    {
        self.list.len()
    }

    /// The local variables, the outer ones first.
    pub fn as_slice(&self) -> &[Local]
        ensures { result.now ≡ self.now }
    {
        self.list.as_slice()
    }

    /// Each holds what a literal can say, so that it can be closed into a text.
    pub fn hold_literals(&self)
        ensures { IsTrue (list_all has_literal self.now) }
    {
        let _ = &self.list;
    }

    /// Brings a local variable into scope, before which earlier ones of its name do not count.
    pub fn push(&mut self, local: Local) -> Result<(), NoMemory>
        ensures ok { OnOk result (self.new ≡ self.old ++ local ∷ []) }
        ensures err { OnErr result (self.new ≡ self.old) }
    {
        is_literal(&local.value);
        self.list.push(local)?;
        Ok(())
    }

    /// Leaves the first `count`, as where a block ends.
    pub fn cut(&mut self, count: usize)
        ensures { self.new ≡ take count self.old }
    {
        self.list.truncate(count);
    }

    /// The local variable that a name means, None where there is none.
    pub fn find(&self, name: &Bytes) -> Option<&Local>
        ensures { option_copied result ≡ find_local self.now name.now }
    {
        match last_place(&self.list, name) {
            None => None,
            Some(at) => Some(&self.list[at]),
        }
    }

    /// Gives the local variable that a name means another value, false where there is none.
    pub fn assign(&mut self, name: &Bytes, value: Value) -> bool
        ensures found { result ≡ is_some (find_local self.old name.now) }
        ensures assigned { self.new ≡ set_local name.now value self.old }
    {
        is_literal(&value);
        match last_place(&self.list, name) {
            None => false,
            Some(at) => {
                self.list[at].value = value;
                true
            }
        }
    }
}

/// The place of the last local variable of a name.
fn last_place(locals: &[Local], name: &Bytes) -> Option<usize>
    ensures place { result ≡ last_place locals.now name.now }
    ensures within { IfSome result (λ at. at < length locals.now) }
{
    let mut found = None;
    for (at, local) in locals.iter().enumerate() {
        if local.name == *name {
            found = Some(at);
        }
    }
    found
}

/// A value of SQL is what a literal can say, whatever it is.
fn is_literal(value: &Value)
    ensures { IsTrue (is_literal value.now) }
{
    match value {
        Value::Null => {}
        Value::Int(number) => {
            let _number = *number;
        }
        Value::Text(text) => is_text(text.as_slice()),
    }
}

/// Bytes are at most 255.
fn is_text(bytes: &[u8])
    ensures { IsTrue (is_literal (SqlValue.Text bytes.now)) }
{
    let _bytes = bytes;
}
