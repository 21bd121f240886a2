//! White space, words and numbers in bytes.
ghost use Rattle.std.specs.Prelude.{◌≡◌, ◌≤◌, length, reverse, IfSome};
ghost use Rattle.std.specs.List.{list_all, take_while};
ghost use Rattle.std.specs.Char.{is_ascii_digit};
ghost use Rattle.script_read.specs.Bytes.{behind_word, first_word, is_blank, is_numeral, is_word, is_word_byte, number_to, trim, trim_front};

fn is_blank(byte: u8) -> bool
    ensures { result ≡ is_blank byte }
{
    matches!(byte, b'\t' | b'\n' | b'\r' | b' ')
}

/// The bytes from the first one that is no white space.
pub(crate) fn trim_front(bytes: &[u8]) -> &[u8]
    ensures value { result.now ≡ trim_front bytes.now }
    ensures within { length result.now ≤ length bytes.now }
{
    for (i, byte) in bytes.iter().enumerate() {
        if !is_blank(*byte) {
            return &bytes[i..];
        }
    }
    &[]
}

/// The bytes up to the last one that is no white space.
fn trim_back(bytes: &[u8]) -> &[u8]
    ensures value { result.now ≡ reverse (trim_front (reverse bytes.now)) }
    ensures within { length result.now ≤ length bytes.now }
{
    let mut rest = bytes;
    while let [front @ .., last] = rest {
        if !is_blank(*last) {
            break;
        }
        rest = front;
    }
    rest
}

/// The bytes without white space at their ends.
pub(crate) fn trim(bytes: &[u8]) -> &[u8]
    ensures value { result.now ≡ trim bytes.now }
    ensures within { length result.now ≤ length bytes.now }
{
    trim_back(trim_front(bytes))
}

/// Whether `bytes` are a word, in any case of its letters.
pub(crate) fn is_word(word: &[u8], bytes: &[u8]) -> bool
    ensures { result ≡ is_word word.now bytes.now }
{
    bytes.eq_ignore_ascii_case(word)
}

fn is_word_byte(byte: u8) -> bool
    ensures { result ≡ is_word_byte byte }
{
    matches!(byte, b'A'..=b'Z' | b'a'..=b'z' | b'0'..=b'9' | b'_' | b'$')
}

/// How many bytes the first word of a text has.
fn word_size(text: &[u8]) -> usize
    ensures within { result ≤ length text.now }
    ensures value { result ≡ length (take_while is_word_byte text.now) }
{
    text.iter().take_while(|byte| is_word_byte(**byte)).count()
}

/// The first word of a text, and what stands behind it.
#[tactic(auto, using(crate::proofs::Fronts::front_is_taken))]
pub(crate) fn cut_word(text: &[u8]) -> (&[u8], &[u8])
    ensures word { result.0.now ≡ first_word text.now }
    ensures rest { result.1.now ≡ behind_word text.now }
{
    text.split_at(word_size(text))
}

/// Whether all of these bytes are digits.
fn are_digits(bytes: &[u8]) -> bool
    ensures { result ≡ list_all is_ascii_digit bytes.now }
{
    for byte in bytes {
        if !byte.is_ascii_digit() {
            return false;
        }
    }
    true
}

/// Whether these are digits without a leading zero, at least one.
fn is_numeral(digits: &[u8]) -> bool
    ensures { result ≡ is_numeral digits.now }
{
    match digits {
        [first, rest @ ..] => matches!(first, b'1'..=b'9') && are_digits(rest),
        [] => false,
    }
}

/// The number that `digits` are in decimal, without sign or leading zero, from 1 to `limit`.
#[tactic(auto, using(crate::proofs::Numbers::too_great))]
pub(crate) fn number_to(limit: u32, digits: &[u8]) -> Option<u32>
    ensures value { result ≡ number_to limit digits.now }
    ensures within { IfSome result (λ number. (1 ≤ number) × (number ≤ limit)) }
{
    if !is_numeral(digits) {
        return None;
    }
    let mut number = 0u64;
    for digit in digits {
        number = 10 * number + u64::from(digit.saturating_sub(b'0'));
        if number > u64::from(limit) {
            return None;
        }
    }
    Some(number as u32)
}
