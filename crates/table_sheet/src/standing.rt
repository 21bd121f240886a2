//! Rows that stand just so: replaced and taken out.
ghost use Rattle.std.specs.Prelude.{◌≡◌, true, false, if◌then◌else◌, IfOk, IfSome, OnErr, OnOk, Err};
ghost use Rattle.val_types.specs.Fitting.{row_fits};
ghost use Rattle.val_types.specs.Keys.{primary_key};
ghost use Rattle.table_rules.specs.Stored.{rows_beside};
ghost use Rattle.table_sheet.specs.Pages.{has_entry, rows_on, Stays};
ghost use Rattle.table_sheet.specs.Refusals.{Deleted, Replaced};
ghost use Rattle.table_sheet.specs.Standing.{have_same_keys, is_standing, with_present};
ghost use Rattle.table_sheet.specs.declared.refusal.SheetRefusal.TheVariants.{Absent};

use crate::comparing::same_keys;
use crate::refusal::SheetRefusal;
use crate::sheet::Sheet;
use sharing::Shared;
use std::alloc::Global;
use val_types::{NoMemory, Row, key_cmp, key_of};

impl Sheet {
    /// Whether just this row stands.
    fn has_just(&self, row: &Row) -> bool
        ensures { result ≡ is_standing self.now.definition row.now (rows_on self.now) }
    {
        match self.get_same(row) {
            Some(standing) => key_cmp(standing.get(), row).is_eq(),
            None => false,
        }
    }

    /// Where just this row stands, shows another one of the same keys in its place, or none; answers whether it stood. Its key is
    /// looked for once among the entries and once among the committed rows. An entry that was not there wants memory.
    fn set_just(
        &mut self,
        alloc: Global,
        old: &Row,
        present: Option<Shared<Row>>,
    ) -> Result<bool, NoMemory>
        requires fits { IfSome present (λ new. row_fits self.old.definition.columns new ≡ true) }
        requires keys { IfSome present (λ new. have_same_keys self.old.definition old.now new ≡ true) }
        ensures stood { IfOk result (λ stood. stood ≡ is_standing self.old.definition old.now (rows_on self.old)) }
        ensures rows { IfOk result (λ stood. rows_on self.new ≡ (if stood
            then with_present self.old.definition present (rows_beside self.old.definition (primary_key self.old.definition old.now) (rows_on self.old))
            else rows_on self.old)) }
        ensures entry { IfOk result (λ stood. stood ≡ true → has_entry (primary_key self.old.definition old.now) self.new ≡ true) }
        ensures failed { OnErr result (is_standing self.old.definition old.now (rows_on self.old) ≡ true) }
        ensures same { OnErr result (rows_on self.new ≡ rows_on self.old) }
        ensures stays { Stays self.old self.new }
    {
        match self.overlay.find_row(&self.definition, old) {
            Ok(spot) => {
                if !self.overlay.shows(spot, old) {
                    return Ok(false);
                }
                let _ = self.overlay.fill(&self.definition, spot, present);
                Ok(true)
            }
            Err(spot) => {
                let row = match self.committed.get_same(&self.definition, old) {
                    Some(row) => row,
                    None => return Ok(false),
                };
                if !key_cmp(row.get(), old).is_eq() {
                    return Ok(false);
                }
                let bearer = row.share()?;
                self.overlay
                    .add(alloc, &self.definition, spot, bearer, present, 0)?;
                Ok(true)
            }
        }
    }

    /// Replaces a row that stands just so by one of the same keys, of which no other row can be in the way.
    fn exchange(&mut self, alloc: Global, old: &Row, new: Shared<Row>) -> Result<(), SheetRefusal>
        requires fits { row_fits self.old.definition.columns new ≡ true }
        requires keys { have_same_keys self.old.definition old.now new ≡ true }
        ensures there { is_standing self.old.definition old.now (rows_on self.old) ≡ true
            → Replaced result self.old.definition (primary_key self.old.definition old.now) new (rows_on self.old) (rows_on self.new) }
        ensures absent { is_standing self.old.definition old.now (rows_on self.old) ≡ false
            → (result ≡ Err Absent) × (rows_on self.new ≡ rows_on self.old) }
        ensures before { OnOk result (has_entry (primary_key self.old.definition old.now) self.new ≡ true) }
        ensures entry { OnOk result (has_entry (primary_key self.old.definition new) self.new ≡ true) }
        ensures stays { Stays self.old self.new }
    {
        // no two rows that are shown have a key in common
        let _ = self.definition();
        if self.set_just(alloc, old, Some(new))? {
            Ok(())
        } else {
            Err(SheetRefusal::Absent)
        }
    }

    /// Replaces a row that stands just so by one that may have other keys.
    fn replace_moved(
        &mut self,
        alloc: Global,
        old: &Row,
        new: Shared<Row>,
    ) -> Result<(), SheetRefusal>
        requires { row_fits self.old.definition.columns new ≡ true }
        ensures there { is_standing self.old.definition old.now (rows_on self.old) ≡ true
            → Replaced result self.old.definition (primary_key self.old.definition old.now) new (rows_on self.old) (rows_on self.new) }
        ensures absent { is_standing self.old.definition old.now (rows_on self.old) ≡ false
            → (result ≡ Err Absent) × (rows_on self.new ≡ rows_on self.old) }
        ensures before { OnOk result (has_entry (primary_key self.old.definition old.now) self.new ≡ true) }
        ensures entry { OnOk result (has_entry (primary_key self.old.definition new) self.new ≡ true) }
        ensures stays { Stays self.old self.new }
    {
        if !self.has_just(old) {
            return Err(SheetRefusal::Absent);
        }
        let key = key_of(alloc, self.definition(), old)?;
        self.replace(alloc, &key, new)
    }

    /// Replaces a row that stands just so; Absent where it does not. Keys of the row itself are in no way of the new one. Where that
    /// has the same keys, no other row is looked at, and the key is looked for once among the entries and once among the committed
    /// rows.
    pub fn replace_same(
        &mut self,
        alloc: Global,
        old: &Row,
        new: Shared<Row>,
    ) -> Result<(), SheetRefusal>
        requires { row_fits self.old.definition.columns new ≡ true }
        ensures there { is_standing self.old.definition old.now (rows_on self.old) ≡ true
            → Replaced result self.old.definition (primary_key self.old.definition old.now) new (rows_on self.old) (rows_on self.new) }
        ensures absent { is_standing self.old.definition old.now (rows_on self.old) ≡ false
            → (result ≡ Err Absent) × (rows_on self.new ≡ rows_on self.old) }
        ensures before { OnOk result (has_entry (primary_key self.old.definition old.now) self.new ≡ true) }
        ensures entry { OnOk result (has_entry (primary_key self.old.definition new) self.new ≡ true) }
        ensures stays { Stays self.old self.new }
    {
        if same_keys(self.definition(), old, new.get()) {
            self.exchange(alloc, old, new)
        } else {
            self.replace_moved(alloc, old, new)
        }
    }

    /// Takes a row out that stands just so; Absent where it does not. Its key is looked for once among the entries and once among the
    /// committed rows.
    pub fn remove_same(&mut self, alloc: Global, row: &Row) -> Result<(), SheetRefusal>
        ensures there { is_standing self.old.definition row.now (rows_on self.old) ≡ true
            → Deleted result self.old.definition (primary_key self.old.definition row.now) (rows_on self.old) (rows_on self.new) }
        ensures absent { is_standing self.old.definition row.now (rows_on self.old) ≡ false
            → (result ≡ Err Absent) × (rows_on self.new ≡ rows_on self.old) }
        ensures before { OnOk result (has_entry (primary_key self.old.definition row.now) self.new ≡ true) }
        ensures stays { Stays self.old self.new }
    {
        if self.set_just(alloc, row, None)? {
            Ok(())
        } else {
            Err(SheetRefusal::Absent)
        }
    }
}
