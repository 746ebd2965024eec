//! Core numbers in decimal.

ghost use Rattle.std.specs.Prelude.{◌≡◌};
ghost use Rattle.osinput.specs.Word.{digit_of, two_digits, core_number};

/// The value of a byte, if it is a decimal digit.
fn digit_of(c: u8) -> Option<u8>
    ensures { result ≡ digit_of c }
{
    if c.is_ascii_digit() {
        Some(c - b'0')
    } else {
        None
    }
}

/// The number of one or two decimal digits, without a leading zero. None for any other text.
#[inline(always)]
pub fn core_number(digits: &[u8]) -> Option<u8>
    ensures { result ≡ core_number digits.now }
{
    match digits {
        [ones] => digit_of(*ones),
        [b'0', _] => None,
        [tens, ones] => two_digits(*tens, *ones),
        _ => None,
    }
}

// The number of two decimal digits. None if one of the bytes is no digit.
fn two_digits(tens: u8, ones: u8) -> Option<u8>
    ensures { result ≡ two_digits tens ones }
{
    let tens = digit_of(tens)?;
    Some(10 * tens + digit_of(ones)?)
}
