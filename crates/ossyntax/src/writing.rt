//! Writing: the text of an operation.

ghost use Rattle.std.specs.Prelude.{◌≡◌, ◌∷◌, ◌++◌, ℕ, List, OnOk, IfOk, string_bytes};
ghost use Rattle.osbase.specs.{declared.objects.ObjectKind.ObjectKind as KindOfObject, declared.objects.Place.Place as Where};
ghost use Rattle.oscript.specs.{Rows.items, Rows.form_view};
ghost use Rattle.ossyntax.specs.ParsedOp.{arg_text, form_text};
ghost use Rattle.ossyntax.specs.Operation.{args_text, named, named_form, op_text};

use osbase::{ObjectKind, Place};
use oscript::{Arg, Args, Op, ParsedOp, parsed_op_of, row_of};
use std::alloc::{AllocError, Global};

/// The names of the objects.
pub trait Names {
    ghost name: { Self → KindOfObject → Where → List ℕ };

    /// The name of the object of this kind at this place.
    fn name(&self, kind: ObjectKind, place: Place) -> &str
        ensures { result.now ≡ name self.now kind place };
}

// Adds a space and the argument to the text.
fn push_arg<N: Names>(
    alloc: Global,
    names: &N,
    text: &mut String,
    arg: Arg<Place>,
) -> Result<(), AllocError>
    ensures { OnOk result (string_bytes text.new ≡ string_bytes text.old ++ 32 ∷ arg_text (named (N.name names.now) arg)) }
{
    text.push_str(" ")?;
    match arg {
        Arg::Object(_, None) => text.push_str("?")?,
        Arg::Object(kind, Some(place)) => text.push_str(names.name(kind, place))?,
        Arg::Mask(mask) => text.push_str(mask.to_string(alloc)?.as_str())?,
        Arg::Number(n) => text.push_str(n.to_string(alloc)?.as_str())?,
        Arg::Int(n) => text.push_str(n.to_string(alloc)?.as_str())?,
        Arg::Variable(x) => {
            text.push_str("v")?;
            text.push_str(x.to_string(alloc)?.as_str())?;
        }
        Arg::Core(None) => text.push_str("?")?,
        Arg::Core(Some(core)) => text.push_str(core.number.to_string(alloc)?.as_str())?,
    }
    Ok(())
}

// Adds the arguments to the text, each after a space.
fn push_args<N: Names>(
    alloc: Global,
    names: &N,
    text: &mut String,
    args: Args<Arg<Place>>,
) -> Result<(), AllocError>
    ensures { OnOk result (string_bytes text.new ≡ string_bytes text.old ++ args_text (N.name names.now) (items args)) }
{
    match args {
        Args::Zero => Ok(()),
        Args::One(a) => push_arg(alloc, names, text, a),
        Args::Two(a, b) => {
            push_arg(alloc, names, text, a)?;
            push_arg(alloc, names, text, b)
        }
        Args::Three(a, b, c) => {
            push_arg(alloc, names, text, a)?;
            push_arg(alloc, names, text, b)?;
            push_arg(alloc, names, text, c)
        }
    }
}

// The text of a form: its words, divided by one space.
#[tactic(auto, using(crate::proofs::ArgsTexts::joined))]
fn form_text<N: Names>(
    alloc: Global,
    names: &N,
    form: ParsedOp<Place>,
) -> Result<String, AllocError>
    ensures { IfOk result (λ text. string_bytes text ≡ form_text (named_form (N.name names.now) (form_view form))) }
{
    let mut text = String::from_str(alloc, row_of(form.verb).word)?;
    push_args(alloc, names, &mut text, form.args)?;
    Ok(text)
}

/// The text of an operation: its words, divided by one space.
pub fn op_text<N: Names>(alloc: Global, names: &N, op: Op) -> Result<String, AllocError>
    ensures { IfOk result (λ text. string_bytes text ≡ op_text (N.name names.now) op) }
{
    form_text(alloc, names, parsed_op_of(op))
}
