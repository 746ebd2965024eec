//! Reading: well-formed operations, with the places of their names.

ghost use Rattle.std.specs.Prelude.{◌≡◌, ◌∷◌, [], map, option_map, List};
ghost use Rattle.oscript.specs.{declared.rows.Arg.Arg, declared.rows.Kind.Kind, Rows.items, Rows.ref_at, Rows.word_of};
ghost use Rattle.ossyntax.specs.ParsedOp.{first_read, rest_words, verb_and_words, words_behind, words_of};
ghost use Rattle.ossyntax.specs.Operation.{arg_of_word, args_after, args_of_words, has_masks, is_known, last_of, op_of_text, references_of_text, three_of, two_of, unranged, op_with_verb, references_with_verb};

use crate::numbers::{core_of, int_of, mask_of, number_in, variable_of};
use crate::places::{AnyName, Places};
use crate::words::cut;
use osbase::{ObjectKind, Place, Reference};
use oscript::{Arg, Args, Kind, Op, ParsedOp, VERBS, Verb, op_of, row_of};

// The place of the object that the word names; no place for `?`. None for any other word. A name that has a place is
// well-formed, so its form needs no check.
#[inline(always)]
fn target_of_word<P: Places>(places: &P, kind: ObjectKind, word: &str) -> Option<Option<Place>>
    ensures { option_map (Arg.Object kind) result ≡ arg_of_word (P.place places.now) (Kind.Object kind) word.now }
{
    if let Some(place) = places.place(kind, word) {
        return Some(Some(place));
    }
    if word == "?" { Some(None) } else { None }
}

// The word as an argument of the kind, with the place of its name. None if the word is no such argument, or if the name
// has no place.
#[inline(always)]
fn arg_of_word<P: Places>(places: &P, kind: Kind, word: &str) -> Option<Arg<Place>>
    ensures { result ≡ arg_of_word (P.place places.now) kind word.now }
{
    match kind {
        Kind::Object(kind) => Some(Arg::Object(kind, target_of_word(places, kind, word)?)),
        Kind::Mask => Some(Arg::Mask(mask_of(word)?)),
        Kind::Number(low, high) => {
            let n = number_in(u64::from(low), u64::from(high), word)?;
            Some(Arg::Number(n as u32))
        }
        Kind::Int => Some(Arg::Int(int_of(word)?)),
        Kind::Variable => Some(Arg::Variable(variable_of(word)?)),
        Kind::Core => Some(Arg::Core(core_of(word)?)),
    }
}

// The next word as an argument of the kind, and the rest of the text behind the word. None if there is no such
// argument.
#[inline(always)]
fn next_arg<'a, P: Places>(
    places: &P,
    kind: Kind,
    rest: Option<&'a str>,
) -> Option<(Arg<Place>, Option<&'a str>)>
    ensures { (kinds : List Kind) → args_of_words (P.place places.now) (kind ∷ kinds) (rest_words rest.entry) ≡ args_after (P.place places.now) result kinds }
{
    let (word, rest) = cut(rest?);
    Some((arg_of_word(places, kind, word)?, rest))
}

// The last word as an argument of the kind. No argument has a space, so the whole rest of the text is that word.
#[tactic(auto, using(crate::proofs::Meant::last_of_text))]
#[inline(always)]
fn last_arg<P: Places>(places: &P, kind: Kind, rest: Option<&str>) -> Option<Arg<Place>>
    ensures { option_map last_of result ≡ args_of_words (P.place places.now) (kind ∷ []) (rest_words rest.entry) }
{
    match rest {
        Some(word) => arg_of_word(places, kind, word),
        None => None,
    }
}

// The last two words as arguments of the kinds.
#[inline(never)]
fn last_two<P: Places>(
    places: &P,
    kind: Kind,
    last: Kind,
    rest: Option<&str>,
) -> Option<(Arg<Place>, Arg<Place>)>
    ensures { option_map two_of result ≡ args_of_words (P.place places.now) (kind ∷ last ∷ []) (rest_words rest.entry) }
{
    match next_arg(places, kind, rest) {
        Some((a, rest)) => match last_arg(places, last, rest) {
            Some(b) => Some((a, b)),
            None => None,
        },
        None => None,
    }
}

// The last three words as arguments of the kinds.
#[inline(never)]
fn last_three<P: Places>(
    places: &P,
    kind: Kind,
    next: Kind,
    last: Kind,
    rest: Option<&str>,
) -> Option<(Arg<Place>, Arg<Place>, Arg<Place>)>
    ensures { option_map three_of result ≡ args_of_words (P.place places.now) (kind ∷ next ∷ last ∷ []) (rest_words rest.entry) }
{
    match next_arg(places, kind, rest) {
        Some((a, rest)) => match last_two(places, next, last, rest) {
            Some((b, c)) => Some((a, b, c)),
            None => None,
        },
        None => None,
    }
}

// The rest of the text as arguments of the kinds. One argument is read here. More are read by separate calls, which do
// not slow down operations with one.
#[inline(always)]
fn args_of_words<P: Places>(
    places: &P,
    kinds: Args<Kind>,
    rest: Option<&str>,
) -> Option<Args<Arg<Place>>>
    ensures { option_map items result ≡ args_of_words (P.place places.now) (items kinds) (rest_words rest.entry) }
{
    match kinds {
        Args::Zero => match rest {
            Some(_) => None,
            None => Some(Args::Zero),
        },
        Args::One(last) => match last_arg(places, last, rest) {
            Some(a) => Some(Args::One(a)),
            None => None,
        },
        Args::Two(kind, last) => match last_two(places, kind, last, rest) {
            Some((a, b)) => Some(Args::Two(a, b)),
            None => None,
        },
        Args::Three(kind, next, last) => match last_three(places, kind, next, last, rest) {
            Some((a, b, c)) => Some(Args::Three(a, b, c)),
            None => None,
        },
    }
}

// What follows the verb's word, if it is the first word of the text; nothing if the text ends there. None if the first
// word is another one.
#[inline(always)]
fn rest_of(verb: Verb, text: &str) -> Option<Option<&str>>
    ensures { option_map rest_words result ≡ words_behind (word_of verb) (words_of text.now) }
{
    match text.strip_prefix(row_of(verb).word) {
        Some(rest) if rest.is_empty() => Some(None),
        Some(rest) => match rest.strip_prefix(' ') {
            Some(rest) => Some(Some(rest)),
            None => None,
        },
        None => None,
    }
}

// The first of these verbs whose word is the first word of the text, and what follows that word.
#[inline(always)]
fn first_of<'t>(verbs: &[Verb], text: &'t str) -> Option<(Verb, Option<&'t str>)>
    ensures { option_map verb_and_words result ≡ first_read (words_of text.now) verbs.now }
{
    for verb in verbs {
        if let Some(rest) = rest_of(*verb, text) {
            return Some((*verb, rest));
        }
    }
    None
}

// The verb of a text's first word, and what follows it. Each verb's word is compared with the beginning of the text:
// words are short, so the first word's end is not looked for. The most frequent verb is compared first, by itself.
#[inline(always)]
fn first_verb(text: &str) -> Option<(Verb, Option<&str>)>
    ensures { option_map verb_and_words result ≡ first_read (words_of text.now) VERBS }
{
    match rest_of(Verb::ActivateTask, text) {
        Some(rest) => Some((Verb::ActivateTask, rest)),
        None => first_of(&VERBS, text),
    }
}

// The operation of the verb with the rest of the text as its arguments, however many the verb has.
#[inline(never)]
fn op_with_args<P: Places>(places: &P, verb: Verb, rest: Option<&str>) -> Option<Op>
    ensures { result ≡ op_with_verb (P.place places.now) (rest_words rest.entry) verb }
{
    match args_of_words(places, row_of(verb).kinds, rest) {
        Some(args) => Some(op_of(ParsedOp { verb, args })),
        None => None,
    }
}

// The last word as the reference to the object that it names; no reference for `?`. None for any other word, or if
// there is none.
#[inline(always)]
fn ref_of_text<P: Places, R: Reference>(places: &P, rest: Option<&str>) -> Option<Option<R>>
    ensures { result ≡ option_map (λ args. ref_at R.KIND R.ref_of args 0) (args_of_words (P.place places.now) (Kind.Object R.KIND ∷ []) (rest_words rest.entry)) }
{
    match rest {
        Some(word) => match target_of_word(places, R::KIND, word) {
            Some(Some(place)) => Some(Some(R::at(place))),
            Some(None) => Some(None),
            None => None,
        },
        None => None,
    }
}

// The operation of the verb with the rest of the text as its arguments. Operations with one argument, an object of a
// core, are read here directly. The others are read by a call, which does not slow down these.
#[tactic(auto, using(crate::proofs::Meant::mapped_twice))]
#[inline(always)]
fn op_with_verb<P: Places>(places: &P, verb: Verb, rest: Option<&str>) -> Option<Op>
    ensures { result ≡ op_with_verb (P.place places.now) (rest_words rest.entry) verb }
{
    match verb {
        Verb::ActivateTask => Some(Op::ActivateTask(ref_of_text(places, rest)?)),
        Verb::ChainTask => Some(Op::ChainTask(ref_of_text(places, rest)?)),
        Verb::GetResource => Some(Op::GetResource(ref_of_text(places, rest)?)),
        Verb::ReleaseResource => Some(Op::ReleaseResource(ref_of_text(places, rest)?)),
        Verb::IncrementCounter => Some(Op::IncrementCounter(ref_of_text(places, rest)?)),
        Verb::CancelAlarm => Some(Op::CancelAlarm(ref_of_text(places, rest)?)),
        Verb::StopScheduleTable => Some(Op::StopScheduleTable(ref_of_text(places, rest)?)),
        _ => op_with_args(places, verb, rest),
    }
}

/// The operation that a text means. None if the text is empty, not well-formed or not in range, or if a name in it
/// has no place.
#[inline(always)]
pub fn op_of_text<P: Places>(places: &P, text: &str) -> Option<Op>
    ensures { result ≡ op_of_text (P.place places.now) text.now }
{
    match first_verb(text) {
        Some((verb, rest)) => op_with_verb(places, verb, rest),
        None => None,
    }
}

// The kind; in place of `Number`, it is `Mask`, which takes any decimal number.
#[inline(always)]
fn unranged(kind: Kind) -> Kind
    ensures { result ≡ unranged kind }
{
    match kind {
        Kind::Number(_, _) => Kind::Mask,
        _ => kind,
    }
}

// The kinds; in place of each `Number`, there is `Mask`.
#[inline(always)]
fn all_unranged(kinds: Args<Kind>) -> Args<Kind>
    ensures { items result ≡ map unranged (items kinds) }
{
    match kinds {
        Args::Zero => Args::Zero,
        Args::One(a) => Args::One(unranged(a)),
        Args::Two(a, b) => Args::Two(unranged(a), unranged(b)),
        Args::Three(a, b, c) => Args::Three(unranged(a), unranged(b), unranged(c)),
    }
}

// The operation of the verb with the rest of the text as its arguments, but with 0 for each `Number`.
#[inline(always)]
fn references_with_verb<P: Places>(places: &P, verb: Verb, rest: Option<&str>) -> Option<Op>
    ensures { result ≡ references_with_verb (P.place places.now) (rest_words rest.entry) verb }
{
    match args_of_words(places, all_unranged(row_of(verb).kinds), rest) {
        Some(args) => Some(op_of(ParsedOp { verb, args })),
        None => None,
    }
}

/// The operation that a text means, but with 0 for each `Number`, whether the number is in its range or not. So the
/// names and the masks can be checked whatever the numbers are. None if the text is not well-formed, or if a name in it
/// has no place.
pub fn references_of_text<P: Places>(places: &P, text: &str) -> Option<Op>
    ensures { result ≡ references_of_text (P.place places.now) text.now }
{
    match first_verb(text) {
        Some((verb, rest)) => references_with_verb(places, verb, rest),
        None => None,
    }
}

/// Whether each name of a well-formed text has a place, whatever the numbers of the text are. Any other text has no
/// names.
pub fn is_known<P: Places>(places: &P, text: &str) -> bool
    ensures { result ≡ is_known (P.place places.now) text.now }
{
    references_of_text(places, text).is_some() || references_of_text(&AnyName, text).is_none()
}

/// Whether each mask of a well-formed text is in its range, whatever the numbers of the text are. Any other text has no
/// masks.
pub fn has_masks(text: &str) -> bool
    ensures { result ≡ has_masks text.now }
{
    match references_of_text(&AnyName, text) {
        Some(op) => op.has_masks(),
        None => true,
    }
}
