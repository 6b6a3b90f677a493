//! The parts of a text that are no trees: numbers, strings, names.

ghost use Rattle.std.specs.Prelude.{◌≡◌, ◌++◌, ◌<◌, [], ◌∷◌, OnOk, codes, decimal};
ghost use Rattle.js_tree.specs.Printed.{hex_digit, escaped, byte_text, bytes_text, string_text, bool_text};

use gj_base::{NoMemory, Text};
use itoa::Buffer;

/// A number in decimal digits.
pub fn number(out: &mut Text, n: u64) -> Result<(), NoMemory>
    ensures text { OnOk result (out.new ≡ out.old ++ decimal n) }
{
    let mut buffer = Buffer::new();
    let digits = buffer.format(n);
    out.push_bytes(digits.as_bytes())
}

fn hex_digit(n: u8) -> u8
    requires { n < 16 }
    ensures { result ≡ hex_digit n }
{
    if n < 10 { n + 48 } else { n + 87 }
}

/// `\x` and two digits.
fn escaped(out: &mut Text, c: u8) -> Result<(), NoMemory>
    ensures text { OnOk result (out.new ≡ out.old ++ escaped c) }
{
    out.push_bytes(b"\\x")?;
    out.push(hex_digit(c / 16))?;
    out.push(hex_digit(c % 16))
}

/// A byte of a string.
fn byte(out: &mut Text, c: u8) -> Result<(), NoMemory>
    ensures text { OnOk result (out.new ≡ out.old ++ byte_text c) }
{
    if c == b'"' {
        return out.push_bytes(b"\\\"");
    }
    if c == b'\\' {
        return out.push_bytes(b"\\\\");
    }
    if 32 <= c && c < 127 {
        return out.push(c);
    }
    escaped(out, c)
}

fn bytes(out: &mut Text, bytes: &[u8]) -> Result<(), NoMemory>
    ensures text { OnOk result (out.new ≡ out.old ++ bytes_text bytes.now) }
{
    for c in bytes {
        byte(out, *c)?;
    }
    Ok(())
}

/// A string in its quotes: ECMA-262 5.1, 7.8.4.
pub fn string(out: &mut Text, text: &Text) -> Result<(), NoMemory>
    ensures text { OnOk result (out.new ≡ out.old ++ string_text text.now) }
{
    out.push(b'"')?;
    bytes(out, text.as_bytes())?;
    out.push(b'"')
}

/// `true` or `false`.
pub fn boolean(out: &mut Text, b: bool) -> Result<(), NoMemory>
    ensures text { OnOk result (out.new ≡ out.old ++ bool_text b) }
{
    if b {
        return out.push_bytes(b"true");
    }
    out.push_bytes(b"false")
}
