//! A group of a log carried out.
ghost use Rattle.std.specs.Prelude.{◌≡◌, ℕ, [], Some, OnErr, OnOk};
ghost use Rattle.log_groups.specs.catalog_rules.Bases.{Base};
ghost use Rattle.log_groups.specs.log_entries.declared.entries.Entry.{Entry};
ghost use Rattle.log_groups.specs.log_entries.Entries.{entry_applied};
ghost use Rattle.log_groups.specs.Views.{group_seen};
ghost use Rattle.log_groups.specs.log_model.Log.{LogPlace};
ghost use Rattle.apply_laws.specs.log_entry_laws.Entries.{group_of_entry};
ghost use Rattle.answer_making.specs.session_model.Machine.{Whole, kept_entry};
ghost use Rattle.answer_making.specs.session_model.Holding.{changes_of, define};
ghost use Rattle.apply_laws.specs.Following.{CanFollow};
ghost use Rattle.apply_model.specs.Groups.{group_carried};
ghost use Rattle.row_apply.specs.prog_work.Contents.{base_of};
ghost use Rattle.row_apply.specs.Ends.{Ends};
ghost use Rattle.stmt_apply.specs.Applying.{applied_in};
ghost use Rattle.stmt_apply.specs.Following.{Leaves};
ghost use Rattle.stmt_apply.specs.Leading.{LeadsBy};

use crate::definition::apply_definition;
use crate::transaction::apply_transaction;
use apply_laws::entry_is_carried;
use log_groups::{Form, Group};
use port_traits::{Draw, Identity};
use prog_run::Work;
use row_apply::Stop;
use std::alloc::Global;

/// A group, by its form.
#[tactic(auto, unfolding(apply_model::specs::Groups::group_carried))]
fn apply_form(
    alloc: Global,
    work: &mut Work,
    group: &Group<'_>,
    identity: &Identity,
    draw: &Draw,
) -> Result<(), Stop>
    requires { work.old.changes ≡ [] }
    ensures ends { Ends result (applied_in work.new) (group_carried identity.now draw.entry.now (base_of work.old) work.old.counters (group_seen group.now)) }
    ensures leads { OnOk result (LeadsBy (group_seen group.now).form work.old work.new) }
    ensures err { OnErr result (work.new ≡ work.old) }
{
    match &group.form {
        Form::Start => Ok(()),
        Form::Rotate { .. } => Ok(()),
        Form::Ddl(query) => apply_definition(alloc, work, group.begin, query, identity, draw),
        Form::Txn { items, .. } => apply_transaction(alloc, work, *items, identity, draw),
    }
}

/// Carries out a group, or stops where it differs from what is there. The changes of a transaction then stand open, so that
/// they can be written before they are let stand. The group of an entry that can follow never differs, whoever carries it out.
pub fn apply_group(
    alloc: Global,
    work: &mut Work,
    group: &Group<'_>,
    identity: &Identity,
    draw: &Draw,
) -> Result<(), Stop>
    requires { work.old.changes ≡ [] }
    ensures ends { Ends result (applied_in work.new) (group_carried identity.now draw.entry.now (base_of work.old) work.old.counters (group_seen group.now)) }
    ensures leads { OnOk result (LeadsBy (group_seen group.now).form work.old work.new) }
    ensures err { OnErr result (work.new ≡ work.old) }
    ensures follows { (e : Entry Whole) → (number : ℕ) → (p : LogPlace) → (next : Base) → group_seen group.now ≡ group_of_entry (kept_entry e) number p
        → CanFollow (base_of work.old) e number p → entry_applied changes_of define e (base_of work.old) ≡ Some next → Leaves result (base_of work.new) next }
{
    entry_is_carried();
    apply_form(alloc, work, group, identity, draw)
}
