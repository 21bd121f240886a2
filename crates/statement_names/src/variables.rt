//! The user variables of statements, in the order of their bytes.
ghost use Rattle.std.specs.Prelude.{◌≡◌, [], slice_get, OnOk};
ghost use Rattle.std.specs.Option.{option_copied};
ghost use Rattle.sql_reach.specs.catalog_rules.Nodes.{nodes_of};
ghost use Rattle.sql_reach.specs.Carrying.{put_name};
ghost use Rattle.sql_tree.specs.StatementView.{view};
ghost use Rattle.statement_names.specs.Naming.{nodes_put, variables};
ghost use Rattle.statement_names.specs.Rising.{Rises, is_before, is_name_at, place};

use crate::statements::visit_statement;
use crate::visitor::NameVisitor;
use sql_tree::Stmt;
use std::alloc::Global;
use std::marker::Model;
use val_types::{Bytes, Duplicate, List, NoMemory};

/// Names in the order of their bytes, each once, which contracts see as their list.
#[derive(Drop)]
pub struct Names {
    alloc: Global,
    sorted: List<Bytes>,
}

impl Model for Names {
    ghost use Rattle.std.specs.Prelude.{List, ℕ};
    ghost use Rattle.statement_names.specs.Rising.{Rises};

    ghost Value = { List (List ℕ) };

    ghost view = { λ n. n.sorted };

    ghost invariant = { λ n. Rises n.sorted };
}

/// Whether a name stands before another.
fn stands_before(name: &Bytes, other: &Bytes) -> bool
    ensures { result ≡ is_before name.now other.now }
{
    other.cmp(name).is_lt()
}

/// How many names stand before one.
fn place_of(names: &[Bytes], name: &Bytes) -> usize
    requires { Rises names.now }
    ensures { result ≡ place name.now names.now }
{
    names.partition_point(|other| stands_before(name, other))
}

/// Whether a name stands at a place.
fn is_at(names: &[Bytes], at: usize, name: &Bytes) -> bool
    ensures { result ≡ is_name_at (slice_get names.now at) name.now }
{
    match names.get(at) {
        None => false,
        Some(other) => *other == *name,
    }
}

impl Names {
    /// No name, which takes no memory.
    pub fn new(alloc: Global) -> Names
        ensures { result ≡ [] }
    {
        Names {
            alloc,
            sorted: List::new(alloc),
        }
    }

    /// All names, in the order of their bytes.
    pub fn all(&self) -> &[Bytes]
        ensures names { result.now ≡ self.now }
        ensures rising { Rises self.now }
    {
        self.sorted.as_slice()
    }

    /// Puts a name among the others, unless it is there. Where memory is short, the names are as before.
    pub fn put(&mut self, name: &Bytes) -> Result<(), NoMemory>
        ensures { OnOk result (self.new ≡ put_name name.now self.old) }
    {
        let at = place_of(self.sorted.as_slice(), name);
        if is_at(self.sorted.as_slice(), at, name) {
            return Ok(());
        }
        let name = name.duplicate(self.alloc)?;
        self.sorted.insert(at, name)?;
        Ok(())
    }
}

/// Tables are passed over.
impl NameVisitor for Names {
    ghost visits = { variables };

    fn visit_variable(&mut self, name: &Bytes) -> Result<(), NoMemory> {
        self.put(name)
    }

    fn visit_table(&mut self, _name: &Bytes) -> Result<(), NoMemory> {
        Ok(())
    }
}

/// Puts the user variables of a statement among other names, or wants memory.
#[tactic(auto, using(crate::proofs::Walked::statement_walked))]
pub fn put_variables(names: &mut Names, s: &Stmt) -> Result<(), NoMemory>
    ensures { OnOk result (names.new ≡ nodes_put (nodes_of (view s.now)) names.old) }
{
    visit_statement(names, s)
}
