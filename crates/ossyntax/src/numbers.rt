//! Numbers, variables and names, each a word of an operation.

ghost use Rattle.std.specs.Prelude.{◌≡◌, ◌≤◌, ◌-◌, negsuc, IfSome};
ghost use Rattle.std.specs.{Char.is_ascii_digit, List.list_all};
ghost use Rattle.ossyntax.specs.Word.{core_of, is_unpadded, is_decimal, mask_of, number_in, int_of, variable_of};

use osbase::CoreId;

// Whether the word is not empty, and does not begin with `0` if it has more than one character.
fn is_unpadded(word: &[u8]) -> bool
    ensures { result ≡ is_unpadded word.now }
{
    match word {
        [] => false,
        [_] => true,
        [d, _, ..] => *d != b'0',
    }
}

fn are_digits(word: &[u8]) -> bool
    ensures { result ≡ list_all is_ascii_digit word.now }
{
    word.iter().all(|c| c.is_ascii_digit())
}

/// Whether the word is a decimal number without leading zeros.
fn is_decimal(word: &str) -> bool
    ensures { result ≡ is_decimal word.now }
{
    is_unpadded(word.as_bytes()) && are_digits(word.as_bytes())
}

// The number -n.
fn below_zero(n: u64) -> i64
    requires positive { 1 ≤ n }
    requires small { n ≤ 9223372036854775808 }
    ensures { result ≡ negsuc (n - 1) }
{
    -1 - (n - 1) as i64
}

/// The number that the word stands for, if it is a decimal number in this range.
pub fn number_in(low: u64, high: u64, word: &str) -> Option<u64>
    ensures value { result ≡ number_in low high word.now }
    ensures least { IfSome result (λ n. low ≤ n) }
    ensures most { IfSome result (λ n. n ≤ high) }
{
    if !is_decimal(word) {
        return None;
    }
    match word.parse::<u64>() {
        Ok(n) => { if low <= n && n <= high { Some(n) } else { None } }
        Err(_) => None,
    }
}

/// The mask that the word stands for, a bit for each event: a decimal number from 1 to 4294967295. For any other
/// decimal number, it is 0. `None` for any other word.
pub fn mask_of(word: &str) -> Option<u32>
    ensures { result ≡ mask_of word.now }
{
    if !is_decimal(word) {
        return None;
    }
    match number_in(1, 4294967295, word) {
        Some(mask) => Some(mask as u32),
        None => Some(0),
    }
}

/// The signed number of 64 bits that the word stands for, with `-` in front if it is below 0. `None` for any other
/// word.
pub fn int_of(word: &str) -> Option<i64>
    ensures { result ≡ int_of word.now }
{
    match word.strip_prefix("-") {
        Some(digits) => match number_in(1, 9223372036854775808, digits) {
            Some(n) => Some(below_zero(n)),
            None => None,
        },
        None => match number_in(0, 9223372036854775807, word) {
            Some(n) => Some(n as i64),
            None => None,
        },
    }
}

/// The number of the variable that the word names, `v0` to `v7`. `None` for any other word.
pub fn variable_of(word: &str) -> Option<u8>
    ensures { result ≡ variable_of word.now }
{
    match word.as_bytes() {
        [v, d] => {
            if *v == b'v' && b'0' <= *d && *d <= b'7' {
                Some(*d - b'0')
            } else {
                None
            }
        }
        _ => None,
    }
}

/// The core, configured or not, whose number the word is, 0 to 255; no core for `?`. `None` for any other word.
pub fn core_of(word: &str) -> Option<Option<CoreId>>
    ensures { result ≡ core_of word.now }
{
    if word == "?" {
        return Some(None);
    }
    match number_in(0, 255, word) {
        Some(n) => Some(Some(CoreId { number: n as u8 })),
        None => None,
    }
}
