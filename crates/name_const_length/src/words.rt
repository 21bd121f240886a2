//! System variables' names, in backquotes only where they need them, at the end of a length.
ghost use Rattle.std.specs.Prelude.{◌≡◌, ◌++◌, codes};
ghost use Rattle.sql_print.specs.Names.{bare_name};
ghost use Rattle.name_const_length.specs.Growing.{grown};

use crate::lengths::{add, add_name};
use sql_print::is_bare;
use val_types::Bytes;

/// A system variable's name, in backquotes only where it needs them.
fn add_bare_name(total: &mut u64, name: &Bytes)
    ensures { total.new ≡ grown total.old (bare_name name.now) }
{
    if is_bare(name.as_slice()) {
        add(total, name.as_slice());
    } else {
        add_name(total, name);
    }
}

/// `@@name`
pub fn add_system_name(total: &mut u64, name: &Bytes)
    ensures { total.new ≡ grown total.old (codes "@@" ++ bare_name name.now) }
{
    add(total, b"@@");
    add_bare_name(total, name);
}
