//! The number that bytes are.
ghost use Rattle.std.specs.Prelude.{◌≡◌, ◌≤◌, length};
ghost use Rattle.statement_names.specs.sql_reach.Defining.{number_of_bytes};

/// At most 16 bytes as a number, the most significant first.
pub(crate) fn number_of_bytes(bytes: &[u8]) -> u128
    requires { length bytes.now ≤ 16 }
    ensures { result ≡ number_of_bytes 0 bytes.now }
{
    let mut number: u128 = 0;
    for byte in bytes {
        number = 256 * number + u128::from(*byte);
    }
    number
}
