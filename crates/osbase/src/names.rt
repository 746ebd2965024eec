//! The form of names.

ghost use Rattle.std.specs.{Prelude.◌≡◌, List.list_all};
ghost use Rattle.osbase.specs.Names.{is_name, is_name_part};

/// Whether a text has the form of a name: 1 to 128 ASCII letters, digits and underscores, a letter first.
pub fn is_name(text: &str) -> bool
    ensures { result ≡ is_name text.now }
{
    match text.as_bytes() {
        [] => false,
        [first, others @ ..] => {
            first.is_ascii_alphabetic() && others.len() <= 127 && are_name_parts(others)
        }
    }
}

// Whether each of these characters may follow the first one of a name.
fn are_name_parts(text: &[u8]) -> bool
    ensures { result ≡ list_all is_name_part text.now }
{
    // The loop has no early exit, so that it can test many characters at a time.
    let mut fits = true;
    for c in text {
        fits &= is_name_part(*c);
    }
    fits
}

// Whether the character may follow the first one of a name.
fn is_name_part(c: u8) -> bool
    ensures { result ≡ is_name_part c }
{
    c.is_ascii_alphanumeric() | (c == b'_')
}
