//! LIMIT and OFFSET.
ghost use Rattle.std.specs.Prelude.{◌≡◌};
ghost use Rattle.value_rules.specs.Selecting.{cut};

use crate::keyed::Keyed;
use val_types::List;

/// The rows behind the first `skip`, and of these the first `take`.
pub fn limit(rows: List<Keyed>, skip: u64, take: u64) -> List<Keyed>
    ensures { result ≡ cut skip take rows }
{
    let mut rows = rows.into_vec();
    let passed = (skip as usize).min(rows.len());
    rows.rotate_left(passed);
    rows.truncate(rows.len() - passed);
    rows.truncate(take as usize);
    List::from_vec(rows)
}
