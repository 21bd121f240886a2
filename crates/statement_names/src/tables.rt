//! The tables of statements, in the order in which they stand there.
ghost use Rattle.std.specs.Prelude.{◌≡◌, [], IfOk};
ghost use Rattle.sql_reach.specs.catalog_rules.Nodes.{nodes_of};
ghost use Rattle.sql_reach.specs.sql_meaning.Running.{tables_named};
ghost use Rattle.sql_tree.specs.StatementView.{view};
ghost use Rattle.statement_names.specs.Naming.{tables};

use crate::statements::visit_statement;
use crate::visitor::NameVisitor;
use sql_tree::Stmt;
use std::alloc::Global;
use std::marker::Model;
use val_types::{Bytes, Duplicate, List, NoMemory};

/// Tables by name, as often as they stand in a statement, which contracts see as their list.
#[derive(Drop)]
struct Tables {
    alloc: Global,
    names: List<Bytes>,
}

impl Model for Tables {
    ghost use Rattle.std.specs.Prelude.{List, ℕ};

    ghost Value = { List (List ℕ) };

    ghost view = { λ t. t.names };
}

/// User variables are passed over.
impl NameVisitor for Tables {
    ghost visits = { tables };

    fn visit_variable(&mut self, _name: &Bytes) -> Result<(), NoMemory> {
        Ok(())
    }

    fn visit_table(&mut self, name: &Bytes) -> Result<(), NoMemory> {
        self.names.push(name.duplicate(self.alloc)?)
    }
}

impl Tables {
    fn new(alloc: Global) -> Tables
        ensures { result ≡ [] }
    {
        Tables {
            alloc,
            names: List::new(alloc),
        }
    }

    fn into_names(self) -> List<Bytes>
        ensures { result ≡ self }
    {
        self.names
    }
}

/// The names of the tables that a statement changes or reads, in the order in which they stand in it.
#[tactic(auto, using(crate::proofs::Gathered::statement_gathered))]
pub fn tables_of(alloc: Global, statement: &Stmt) -> Result<List<Bytes>, NoMemory>
    ensures { IfOk result (λ names. names ≡ tables_named (nodes_of (view statement.now))) }
{
    let mut tables = Tables::new(alloc);
    visit_statement(&mut tables, statement)?;
    Ok(tables.into_names())
}
