//! Exported names.

ghost use Rattle.std.specs.Prelude.{◌≡◌, ◌↔◌, IsTrue, slice_get};
ghost use Rattle.std.specs.Str.{chars};
ghost use Rattle.go_type.specs.Exported.{is_upper, begins_upper, is_exported, IsHeld};

use gj_base::Text;
use ucd_category::GeneralCategory;

fn is_upper(category: GeneralCategory) -> bool
    ensures { result ≡ is_upper category }
{
    match category {
        GeneralCategory::UppercaseLetter => true,
        _ => false,
    }
}

fn first_char(text: &str) -> Option<char>
    ensures { result ≡ slice_get (chars text.now) 0 }
{
    text.chars().next()
}

fn begins_upper(text: &str) -> bool
    ensures { result ≡ begins_upper (chars text.now) }
{
    match first_char(text) {
        Some(c) => is_upper(GeneralCategory::for_char(c)),
        None => false,
    }
}

/// Whether a name is exported: its first character is an upper case letter.
///
/// Go, "Exported identifiers".
pub fn is_exported(name: &Text) -> bool
    ensures { result ≡ is_exported name.now }
{
    match std::str::from_utf8(name.as_bytes()) {
        Ok(text) => begins_upper(text),
        Err(_) => false,
    }
}

/// Whether a name may stand with this package: an exported one stands with none.
pub fn is_held(name: &Text, package: &Text) -> bool
    ensures { IsTrue result ↔ IsHeld name.now «package».now }
{
    package.as_bytes().is_empty() || !is_exported(name)
}
