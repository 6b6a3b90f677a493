//! Kinds of integers.

ghost use Rattle.std.specs.Prelude.{◌≡◌};
ghost use Rattle.js_int.specs.Kinds.{has_sign, has_halves, bits_in, lies_within};

use gj_base::Kind;

/// Whether a kind has a sign.
pub fn is_signed(kind: Kind) -> bool
    ensures { result ≡ has_sign kind }
{
    match kind {
        Kind::I8 | Kind::I16 | Kind::I32 | Kind::I64 => true,
        Kind::U8 | Kind::U16 | Kind::U32 | Kind::U64 => false,
    }
}

/// Whether a kind has 64 bits.
pub fn is_wide(kind: Kind) -> bool
    ensures { result ≡ has_halves kind }
{
    match kind {
        Kind::I64 | Kind::U64 => true,
        _ => false,
    }
}

/// How many bits a kind has.
pub fn width(kind: Kind) -> u32
    ensures { result ≡ bits_in kind }
{
    match kind {
        Kind::I8 | Kind::U8 => 8,
        Kind::I16 | Kind::U16 => 16,
        Kind::I32 | Kind::U32 => 32,
        Kind::I64 | Kind::U64 => 64,
    }
}

/// Whether each number of a kind is one of another.
pub fn lies_in(from: Kind, to: Kind) -> bool
    ensures { result ≡ lies_within «from» to }
{
    if is_signed(from) {
        return is_signed(to) && width(from) <= width(to);
    }
    if is_signed(to) {
        return width(from) < width(to);
    }
    width(from) <= width(to)
}
