//! Names, labels, numbers and strings of the subset: ECMA-262 5.1, 7.6, 8.4 and 8.5, cut.

ghost use Rattle.std.specs.Prelude.{◌≡◌, true};
ghost use Rattle.std.specs.List.{list_all};
ghost use Rattle.js_tree.specs.Printable.{is_name_byte, is_name, is_own_name, is_own_label, is_byte, is_in_range};

use gj_base::Text;

/// Letters, digits, `_` and `$`.
fn is_name_byte(c: u8) -> bool
    ensures { result ≡ is_name_byte c }
{
    97 <= c && c <= 122 || 65 <= c && c <= 90 || 48 <= c && c <= 57 || c == 95 || c == 36
}

fn are_name_bytes(bytes: &[u8]) -> bool
    ensures { result ≡ list_all is_name_byte bytes.now }
{
    for c in bytes {
        if !is_name_byte(*c) {
            return false;
        }
    }
    true
}

/// Whether it begins with `$` and has the bytes of names.
pub fn is_name(x: &Text) -> bool
    ensures { result ≡ is_name x.now }
{
    match x.as_bytes() {
        [] => false,
        [first, rest @ ..] => *first == 36 && are_name_bytes(rest),
    }
}

/// Whether a name can be declared, set or led to; `$catch` is only read.
pub fn is_own_name(x: &Text) -> bool
    ensures { result ≡ is_own_name x.now }
{
    is_name(x) && x.as_bytes() != b"$catch".as_slice()
}

/// The same of a label that is there.
pub fn is_own_label(x: &Option<Text>) -> bool
    ensures { result ≡ is_own_label x.now }
{
    match x {
        Some(x) => is_own_name(x),
        None => true,
    }
}

/// Whether names can be declared.
pub fn are_own_names(list: &[Text]) -> bool
    ensures { result ≡ list_all is_own_name list.now }
{
    for x in list {
        if !is_own_name(x) {
            return false;
        }
    }
    true
}

/// Whether a number is exact in a script.
pub fn is_in_range(n: u64) -> bool
    ensures { result ≡ is_in_range n }
{
    n <= 9007199254740992
}

/// The bytes of a text are bytes.
pub fn are_bytes(s: &Text) -> bool
    ensures { result ≡ true → list_all is_byte s.now ≡ true }
{
    for c in s.as_bytes() {
        if *c as u32 >= 256 {
            return false;
        }
    }
    true
}
