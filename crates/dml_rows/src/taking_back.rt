//! Changes taken back.
ghost use Rattle.std.specs.Prelude.{◌≡◌, ◌≤◌, true, drop, length, take, List};
ghost use Rattle.val_types.specs.declared.change.Change.{Change};
ghost use Rattle.table_rules.specs.Stored.{all_applied, all_inverse};
ghost use Rattle.table_rules.specs.Stores.{can_take_back, KeepsSame, Still, Store};
ghost use Rattle.table_rules.specs.Leads.{Leads};
ghost use Rattle.dml_rows.specs.Noted.{StaysReversible};

use row_store::Tables;
use undo_log::Undo;

/// Takes the changes behind a mark back, the last one first, and drops them. It takes no memory.
pub fn take_back_to(tables: &mut Tables, undo: &mut Undo, mark: u64)
    requires { can_take_back tables.old (drop mark undo.old) ≡ true }
    ensures tables { all_applied (all_inverse (drop mark undo.old)) tables.old.tables
        ≡ Some tables.new.tables }
    ensures undo { undo.new ≡ take mark undo.old }
    ensures back { StaysReversible tables.old undo.old tables.new undo.new }
    ensures keys { KeepsSame tables.old tables.new }
    ensures still { Still tables.old tables.new }
    ensures leads { (start : Store) → (noted : List Change) → Leads start noted tables.old undo.old
        → length noted ≤ mark → Leads start noted tables.new undo.new }
    ensures home { (start : Store) → (noted : List Change) → Leads start noted tables.old undo.old
        → mark ≡ length noted → (tables.new.tables ≡ start.tables) × (undo.new ≡ noted) }
{
    while undo.mark() > mark {
        if let Some(change) = undo.pop() {
            tables.take_back(change);
        }
    }
}
