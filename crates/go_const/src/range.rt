//! Which numbers a kind holds.

ghost use Rattle.std.specs.Prelude.{◌≡◌, ◌↔◌, IsTrue};
ghost use Rattle.go_const.specs.Representability.{least, greatest, Fits, range_code};
ghost use Rattle.go_const.specs.Operation.{numeral};
ghost use Rattle.go_const.specs.Answer.{between, holds, settled_value};

use crate::constant::{Const, ConstRefusal};
use gj_base::Kind;

// The least value of a kind.
fn least(kind: Kind) -> i128
    ensures { result ≡ least kind }
{
    match kind {
        Kind::I8 => -0x80,
        Kind::I16 => -0x8000,
        Kind::I32 => -0x8000_0000,
        Kind::I64 => -0x8000_0000_0000_0000,
        Kind::U8 | Kind::U16 | Kind::U32 | Kind::U64 => 0,
    }
}

/// The greatest value of a kind.
pub fn greatest(kind: Kind) -> i128
    ensures { result ≡ greatest kind }
{
    match kind {
        Kind::I8 => 0x7f,
        Kind::I16 => 0x7fff,
        Kind::I32 => 0x7fff_ffff,
        Kind::I64 => 0x7fff_ffff_ffff_ffff,
        Kind::U8 => 0xff,
        Kind::U16 => 0xffff,
        Kind::U32 => 0xffff_ffff,
        Kind::U64 => 0xffff_ffff_ffff_ffff,
    }
}

fn is_between(low: i128, high: i128, z: i128) -> bool
    ensures { result ≡ between low high z }
{
    low <= z && z <= high
}

// Whether a number lies in its range.
fn holds(kind: Option<Kind>, z: i128) -> bool
    ensures { result ≡ holds kind z }
{
    match kind {
        None => true,
        Some(kind) => is_between(least(kind), greatest(kind), z),
    }
}

// The fault of a number outside its range.
fn range_code(kind: Option<Kind>) -> u16
    ensures { result ≡ range_code kind }
{
    match kind {
        None => 31,
        Some(_) => 32,
    }
}

fn numeral(kind: Option<Kind>, rune: bool, z: i128) -> Const
    ensures { result ≡ numeral kind rune z }
{
    match kind {
        None if rune => Const::Rune(z),
        _ => Const::Int(z),
    }
}

/// The number where its range holds it, else the fault of that range. None stands for a number of
/// more than 128 bits.
pub fn settled(kind: Option<Kind>, rune: bool, value: Option<i128>) -> Result<Const, ConstRefusal>
    ensures { result ≡ settled_value kind rune value }
{
    match value {
        Some(z) if holds(kind, z) => Ok(numeral(kind, rune, z)),
        _ => Err(ConstRefusal::Code(range_code(kind))),
    }
}

/// Whether a constant is a whole number that the kind holds.
pub fn fits(x: &Const, kind: Kind) -> bool
    ensures { IsTrue result ↔ Fits x.now kind }
{
    match x {
        Const::Int(z) | Const::Rune(z) => is_between(least(kind), greatest(kind), *z),
        Const::Bool(_) | Const::Text(_) => false,
    }
}
