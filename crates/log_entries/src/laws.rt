//! Laws of the definitions.
ghost use Rattle.std.specs.Prelude.{List, Option};
ghost use Rattle.val_types.specs.declared.change.Change.{Change};
ghost use Rattle.catalog_rules.specs.Bases.{Base};
ghost use Rattle.log_entries.specs.Entries.{EntriesGoOn};

/// A law: entries behind others are applied to what those leave, whatever an item is.
pub fn entries_go_on<I>()
    ensures { (changes_of : I → List Change) (define : I → Base → Option Base) → EntriesGoOn changes_of define }
{}
