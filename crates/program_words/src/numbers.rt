//! The number behind a word.
ghost use Rattle.std.specs.Prelude.{◌≡◌, ◌≤◌, length, slice_index};
ghost use Rattle.script_read.specs.Bytes.{number_to};

/// The number that `digits` are in decimal, up to `limit`, where the first is one from 1 to 9.
fn read(limit: u32, digits: &str) -> Option<u32>
    requires some { 1 ≤ length digits.now }
    requires low { 0x31 ≤ slice_index digits.now 0 }
    requires high { slice_index digits.now 0 ≤ 0x39 }
    ensures { result ≡ number_to limit digits.now }
{
    match digits.parse::<u32>() {
        Ok(number) if number <= limit => Some(number),
        Ok(_) => None,
        Err(_) => None,
    }
}

/// The number that `digits` are in decimal, without sign or leading zero, from 1 to `limit`.
pub(crate) fn number_to(limit: u32, digits: &str) -> Option<u32>
    ensures { result ≡ number_to limit digits.now }
{
    match digits.as_bytes() {
        [b'1'..=b'9', ..] => read(limit, digits),
        _ => None,
    }
}
