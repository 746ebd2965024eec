//! The words of an operation.

ghost use Rattle.std.specs.Prelude.{◌≡◌, ◌∷◌};
ghost use Rattle.ossyntax.specs.ParsedOp.{words_of, rest_words};

/// The first word, and the text behind the space after it, if there is a space.
pub fn cut(text: &str) -> (&str, Option<&str>)
    ensures { words_of text.now ≡ result.0.now ∷ rest_words result.1 }
{
    match text.split_once(' ') {
        Some((word, rest)) => (word, Some(rest)),
        None => (text, None),
    }
}
