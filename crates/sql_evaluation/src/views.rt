//! The rows in view.
ghost use Rattle.std.specs.Prelude.{◌≡◌, ◌++◌, ◌∷◌, [], IfOk, OnOk};
ghost use Rattle.sql_evaluation.specs.Seen.{Inside, with_row};

use crate::world::View;
use sharing::Shared;
use std::alloc::Global;
use std::marker::Model;
use val_types::{List, NoMemory, Row, TableDef};

/// The rows in view, the innermost first.
#[derive(Drop)]
pub struct Views {
    views: Vec<View>,
}

impl Model for Views {
    ghost use Rattle.std.specs.Prelude.{List as Items};
    ghost use Rattle.sql_evaluation.specs.declared.world.View.{View as Shown};

    ghost Value = { Items Shown };

    ghost view = { λ v. v.views.items };
}

impl Views {
    /// No row in view.
    pub fn new(alloc: Global) -> Views
        ensures { result ≡ [] }
    {
        Views {
            views: Vec::new(alloc),
        }
    }

    /// The rows in view, the innermost first.
    pub fn as_slice(&self) -> &[View]
        ensures { result.now ≡ self.now }
    {
        self.views.as_slice()
    }

    /// The same rows behind one more.
    fn behind(&self, alloc: Global, first: View) -> Result<Views, NoMemory>
        ensures { IfOk result (λ vs. vs ≡ first ∷ self.now) }
    {
        let mut views = Vec::with_capacity(alloc, self.views.len().saturating_add(1))?;
        push(&mut views, first)?;
        append(&mut views, self.views.as_slice())?;
        Ok(Views { views })
    }

    /// Puts another row of its table in the place of the innermost one.
    pub fn see(&mut self, row: Shared<Row>)
        ensures { self.new ≡ with_row self.old row }
    {
        if !self.views.is_empty() {
            self.views[0].row = row;
        }
    }
}

fn push(views: &mut Vec<View>, view: View) -> Result<(), NoMemory>
    ensures { OnOk result (views.new.items ≡ views.old.items ++ view ∷ []) }
{
    views.push(view)?;
    Ok(())
}

fn append(views: &mut Vec<View>, more: &[View]) -> Result<(), NoMemory>
    ensures { OnOk result (views.new.items ≡ views.old.items ++ more.now) }
{
    for view in more {
        push(views, view.share()?)?;
    }
    Ok(())
}

/// The rows in view behind one of a table, to be put in for each of some rows.
pub fn seeing(
    alloc: Global,
    definition: &Shared<TableDef>,
    views: &Views,
) -> Result<Views, NoMemory>
    ensures { IfOk result (λ inner. Inside definition.now views.now inner) }
{
    let row = Shared::new(alloc, List::new(alloc))?;
    let definition = definition.share()?;
    views.behind(alloc, View { definition, row })
}
