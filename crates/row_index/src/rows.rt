//! Rows by their numbers, wherever they stand.
ghost use Rattle.std.specs.Prelude.{◌≡◌, ℕ, List, Option, option_copied, slice_get};
ghost use Rattle.std.specs.Option.{option_and_then};
ghost use Rattle.val_types.specs.declared.value.Value.{Value as Content};

use row_arena::RowArena;
use val_types::Row;

/// What has rows by numbers.
pub trait RowsByNumber {
    ghost row_of: { Self → ℕ → Option (List Content) };

    /// The row of a number.
    fn row(&self, number: u32) -> Option<&Row>
        ensures { option_copied result ≡ row_of self.now number };
}

impl RowsByNumber for RowArena {
    ghost row_of = { λ arena number. option_and_then (λ row. row) (slice_get arena.rows number) };

    fn row(&self, number: u32) -> Option<&Row> {
        self.get(number)
    }
}
