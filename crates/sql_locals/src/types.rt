//! Types as they are written, and as columns and local variables have them.
ghost use Rattle.std.specs.Prelude.{◌≡◌};
ghost use Rattle.sql_locals.specs.Types.{column_type_if};

use sql_tree::SqlType;
use val_types::ColType;

/// The type that is written so, None where the number of a VARCHAR is past 65535.
pub fn column_type(kind: SqlType) -> Option<ColType>
    ensures { result ≡ column_type_if kind }
{
    match kind {
        SqlType::Int => Some(ColType::Int),
        SqlType::BigInt => Some(ColType::BigInt),
        SqlType::Varchar(most) => match u16::try_from(most) {
            Ok(most) => Some(ColType::Varchar(most)),
            Err(_) => None,
        },
    }
}
