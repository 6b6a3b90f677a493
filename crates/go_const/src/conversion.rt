//! Conversions.

ghost use Rattle.std.specs.Prelude.{◌≡◌, IsTrue, Ok, IfOk, IfErr};
ghost use Rattle.std.specs.Char.{encode_utf8};
ghost use Rattle.go_const.specs.declared.constant.Const.TheVariants as form;
ghost use Rattle.go_const.specs.Representability.{IsHeld};
ghost use Rattle.go_const.specs.Operation.{HasConversion, HasNumberTo, IsConversion, ConversionFault, IsStr, range_of};
ghost use Rattle.go_const.specs.Answer.{character_of, number_to, conversion_of, OrNoMemory};

use crate::constant::{Basic, Const, ConstRefusal};
use crate::range::settled;
use gj_base::Text;
use std::alloc::Global;

// The character that a number stands for, U+FFFD where it stands for none.
fn character(x: i128) -> char
    ensures { result ≡ character_of x }
{
    match u32::try_from(x) {
        Ok(code) => match char::from_u32(code) {
            Some(character) => character,
            None => '\u{fffd}',
        },
        Err(_) => '\u{fffd}',
    }
}

// The UTF-8 bytes of the character that a number stands for.
fn character_text(alloc: Global, x: i128) -> Result<Const, ConstRefusal>
    ensures { OrNoMemory (Unit {0}) result (Ok (form.Text (encode_utf8 (character_of x)))) }
{
    let mut bytes = [0u8; 4];
    let text = character(x).encode_utf8(&mut bytes);
    Ok(Const::Text(Text::from_slice(alloc, text.as_bytes())?))
}

fn text_copy(alloc: Global, x: &Text) -> Result<Const, ConstRefusal>
    ensures { OrNoMemory (Unit {0}) result (Ok (form.Text x.now)) }
{
    Ok(Const::Text(Text::from_slice(alloc, x.as_bytes())?))
}

fn convert_number(alloc: Global, x: i128, to: Basic) -> Result<Const, ConstRefusal>
    requires { HasNumberTo to }
    ensures { OrNoMemory (IsStr to) result (number_to x to) }
{
    match to {
        Basic::Int(kind) => settled(Some(kind), false, Some(x)),
        Basic::Str => character_text(alloc, x),
        Basic::Bool => unreachable!(),
    }
}

fn convert_form(alloc: Global, x: &Const, to: Basic) -> Result<Const, ConstRefusal>
    requires { HasConversion x.now to }
    ensures { OrNoMemory (IsStr to) result (conversion_of x.now to) }
{
    match x {
        Const::Bool(x) => Ok(Const::Bool(*x)),
        Const::Int(x) | Const::Rune(x) => convert_number(alloc, *x, to),
        Const::Text(x) => text_copy(alloc, x),
    }
}

/// The constant as one of the type: truth values, texts and whole numbers stay themselves, a whole
/// number goes to a string as the UTF-8 bytes of its character, and code 32 comes where the kind
/// doesn't hold the number. Only texts take memory.
///
/// Go, "Conversions", "Conversions to and from a string type", "Representability".
pub fn convert(alloc: Global, x: &Const, to: Basic) -> Result<Const, ConstRefusal>
    requires { HasConversion x.now to }
    ensures value { IfOk result (λ c. IsConversion x.now to c × IsHeld (range_of to) c) }
    ensures fault { IfErr result (ConversionFault x.now to) }

    // The same by computing.
    ensures answer { OrNoMemory (IsStr to) result (conversion_of x.now to) }
{
    convert_form(alloc, x, to)
}
