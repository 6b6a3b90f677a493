//! What `print` and `println` write of values.
//!
//! The Go Programming Language Specification (as of Go 1.17), "Bootstrapping".

ghost use Rattle.std.specs.Prelude.{◌≡◌, ◌++◌, ◌∷◌, [], List, OnOk, map};
ghost use Rattle.go_type.specs.Tree.{Ty};
ghost use Rattle.go_core.specs.Text as defined;
ghost use Rattle.go_values.specs.ValuesSeen.{scalar_of, value_of, values_of};

use crate::values::scalar::Scalar;
use gj_base::NoMemory;
use itoa::Buffer;

/// Adds the text of a number.
pub fn push_number(text: &mut Vec<u8>, n: i128) -> Result<(), NoMemory>
    ensures value { OnOk result (text.new.items ≡ text.old.items ++ defined.number_text n) }
{
    let mut buffer = Buffer::new();
    text.extend_from_slice(buffer.format(n).as_bytes())?;
    Ok(())
}

fn truth_text(b: bool) -> &'static [u8]
    ensures value { result.now ≡ defined.truth_text b }
{
    if b { b"true" } else { b"false" }
}

fn push_scalar(text: &mut Vec<u8>, x: Scalar) -> Result<(), NoMemory>
    ensures value { OnOk result ((ts : List Ty) → text.new.items ≡ text.old.items ++ defined.scalar_text (scalar_of ts x.entry)) }
{
    match x {
        Scalar::Truth(b) => text.extend_from_slice(truth_text(b))?,
        Scalar::Whole(n) => push_number(text, n)?,
        Scalar::Text(bytes) => text.extend_from_slice(bytes)?,
        _ => {}
    }
    Ok(())
}

fn push_value(text: &mut Vec<u8>, value: &[Scalar]) -> Result<(), NoMemory>
    ensures value { OnOk result ((ts : List Ty) → text.new.items ≡ text.old.items ++ defined.value_text (value_of ts value.now)) }
{
    match value.split_first() {
        Some((x, _others)) => push_scalar(text, *x),
        None => Ok(()),
    }
}

// The operands, each after a space, and the line's end.
fn push_rest_of_line<'a>(text: &mut Vec<u8>, values: &[&'a [Scalar<'a>]]) -> Result<(), NoMemory>
    ensures value { OnOk result ((ts : List Ty) → text.new.items ≡ text.old.items ++ defined.rest_of_line (defined.texts_of (values_of ts values.now))) }
{
    'values: for i in 0..values.len() {
        text.push(b' ')?;
        push_value(text, values[i])?;
    }
    text.push(b'\n')?;
    Ok(())
}

fn push_line<'a>(text: &mut Vec<u8>, values: &[&'a [Scalar<'a>]]) -> Result<(), NoMemory>
    ensures value { OnOk result ((ts : List Ty) → text.new.items ≡ text.old.items ++ defined.line_of (defined.texts_of (values_of ts values.now))) }
{
    match values.split_first() {
        Some((first, others)) => {
            push_value(text, *first)?;
            push_rest_of_line(text, others)
        }
        None => {
            text.push(b'\n')?;
            Ok(())
        }
    }
}

fn push_joined<'a>(text: &mut Vec<u8>, values: &[&'a [Scalar<'a>]]) -> Result<(), NoMemory>
    ensures value { OnOk result ((ts : List Ty) → text.new.items ≡ text.old.items ++ defined.joined (defined.texts_of (values_of ts values.now))) }
{
    'values: for i in 0..values.len() {
        push_value(text, values[i])?;
    }
    Ok(())
}

/// Adds what `println` writes where it ends the line, and else what `print` does.
pub fn push_output<'a>(
    text: &mut Vec<u8>,
    ends_line: bool,
    values: &[&'a [Scalar<'a>]],
) -> Result<(), NoMemory>
    ensures value { OnOk result ((ts : List Ty) → text.new.items ≡ text.old.items ++ defined.output_of ends_line (values_of ts values.now)) }
{
    if ends_line {
        push_line(text, values)
    } else {
        push_joined(text, values)
    }
}
