//! Characters in UTF-8, letters and digits.

ghost use Rattle.std.specs.Char.{is_ascii_alphabetic, is_ascii_digit};
ghost use Rattle.std.specs.Prelude.{◌==◌, ◌||◌, ◌≡◌, ◌<◌, ◌≤◌, length};
ghost use Rattle.go_lexer.specs.Chars as chars;

use ucd_category::GeneralCategory;

/// The byte at a place, and 0 past the end.
#[inline(always)]
pub(crate) fn byte_at(text: &[u8], place: usize) -> u8
    ensures value { result ≡ chars.byte_at text.now place }
    ensures within { 0 < result → place < length text.now }
{
    if place < text.len() { text[place] } else { 0 }
}

fn is_between(least: u8, most: u8, b: u8) -> bool
    ensures { result ≡ chars.is_between least most b }
{
    least <= b && b <= most
}

fn is_tail(b: u8) -> bool
    ensures { result ≡ chars.is_tail b }
{
    is_between(0x80, 0xBF, b)
}

fn is_second_of_three(a: u8, b: u8) -> bool
    ensures { result ≡ chars.is_second_of_three a b }
{
    if a == 0xE0 {
        is_between(0xA0, 0xBF, b)
    } else if a == 0xED {
        is_between(0x80, 0x9F, b)
    } else {
        is_tail(b)
    }
}

fn is_second_of_four(a: u8, b: u8) -> bool
    ensures { result ≡ chars.is_second_of_four a b }
{
    if a == 0xF0 {
        is_between(0x90, 0xBF, b)
    } else if a == 0xF4 {
        is_between(0x80, 0x8F, b)
    } else {
        is_tail(b)
    }
}

#[tactic(auto, unfolding(crate::specs::Chars::width_of_bytes))]
fn width_of_bytes(a: u8, b: u8, c: u8, d: u8) -> usize
    ensures value { result ≡ chars.width_of_bytes a b c d }
    ensures within { result ≤ 4 }
{
    if a < 0x80 {
        1
    } else if a < 0xC2 {
        0
    } else if a < 0xE0 {
        if is_tail(b) { 2 } else { 0 }
    } else if a < 0xF0 {
        if is_second_of_three(a, b) && is_tail(c) {
            3
        } else {
            0
        }
    } else if a < 0xF5 {
        if is_second_of_four(a, b) && is_tail(c) && is_tail(d) {
            4
        } else {
            0
        }
    } else {
        0
    }
}

/// How many bytes the text's first character has; 0 where the text begins with none.
#[inline(always)]
#[tactic(auto, unfolding(crate::specs::Chars::width_of_bytes))]
pub(crate) fn char_width(text: &[u8]) -> usize
    ensures value { result ≡ chars.char_width text.now }
    ensures within { result ≤ 4 }
{
    if byte_at(text, 0) < 0x80 {
        return 1;
    }
    width_of_bytes(
        byte_at(text, 0),
        byte_at(text, 1),
        byte_at(text, 2),
        byte_at(text, 3),
    )
}

fn is_letter_category(category: GeneralCategory) -> bool
    ensures { result ≡ chars.is_letter_category category }
{
    match category {
        GeneralCategory::UppercaseLetter => true,
        GeneralCategory::LowercaseLetter => true,
        GeneralCategory::TitlecaseLetter => true,
        GeneralCategory::ModifierLetter => true,
        GeneralCategory::OtherLetter => true,
        _ => false,
    }
}

fn is_digit_category(category: GeneralCategory) -> bool
    ensures { result ≡ chars.is_digit_category category }
{
    match category {
        GeneralCategory::DecimalNumber => true,
        _ => false,
    }
}

#[tactic(auto, unfolding(crate::specs::Chars::is_letter))]
fn is_letter(c: char) -> bool
    ensures { result ≡ chars.is_letter c }
{
    c == '_' || is_letter_category(GeneralCategory::for_char(c))
}

#[tactic(auto, unfolding(crate::specs::Chars::is_digit))]
fn is_digit(c: char) -> bool
    ensures { result ≡ chars.is_digit c }
{
    is_digit_category(GeneralCategory::for_char(c))
}

#[tactic(auto, unfolding(crate::specs::Chars::code_of_bytes))]
fn code_of_bytes(width: usize, a: u8, b: u8, c: u8, d: u8) -> u32
    ensures { result ≡ chars.code_of_bytes width a b c d }
{
    if width == 1 {
        a as u32
    } else if width == 2 {
        (a as u32).saturating_sub(0xC0) * 0x40 + (b as u32).saturating_sub(0x80)
    } else if width == 3 {
        (a as u32).saturating_sub(0xE0) * 0x1000
            + (b as u32).saturating_sub(0x80) * 0x40
            + (c as u32).saturating_sub(0x80)
    } else {
        (a as u32).saturating_sub(0xF0) * 0x40000
            + (b as u32).saturating_sub(0x80) * 0x1000
            + (c as u32).saturating_sub(0x80) * 0x40
            + (d as u32).saturating_sub(0x80)
    }
}

/// The text's first character.
#[tactic(auto, unfolding(crate::specs::Chars::first_char))]
fn first_char(text: &[u8]) -> Option<char>
    ensures { result ≡ chars.first_char text.now }
{
    let width = char_width(text);
    if width == 0 {
        return None;
    }
    let a = byte_at(text, 0);
    char::from_u32(code_of_bytes(
        width,
        a,
        byte_at(text, 1),
        byte_at(text, 2),
        byte_at(text, 3),
    ))
}

/// Whether a byte below 128 is a letter.
#[inline(always)]
pub(crate) fn is_ascii_letter(b: u8) -> bool
    ensures { result ≡ (b == 95 || is_ascii_alphabetic b) }
{
    b == b'_' || b.is_ascii_alphabetic()
}

/// Whether a byte below 128 is a letter or a digit.
#[inline(always)]
fn is_ascii_name(b: u8) -> bool
    ensures { result ≡ ((b == 95 || is_ascii_alphabetic b) || is_ascii_digit b) }
{
    is_ascii_letter(b) || b.is_ascii_digit()
}

/// How many bytes the letter has that begins the text; 0 where none does.
#[tactic(auto, unfolding(crate::specs::Chars::letter_width))]
pub(crate) fn letter_width(text: &[u8]) -> usize
    ensures value { result ≡ chars.letter_width text.now }
    ensures within { result ≤ 4 }
{
    let b = byte_at(text, 0);
    if b < 0x80 {
        return if is_ascii_letter(b) { 1 } else { 0 };
    }
    match first_char(text) {
        None => 0,
        Some(c) => if is_letter(c) { char_width(text) } else { 0 },
    }
}

/// The same of a letter or a digit.
#[tactic(auto, unfolding(crate::specs::Chars::name_width))]
pub(crate) fn name_width(text: &[u8]) -> usize
    ensures value { result ≡ chars.name_width text.now }
    ensures within { result ≤ 4 }
{
    let b = byte_at(text, 0);
    if b < 0x80 {
        return if is_ascii_name(b) { 1 } else { 0 };
    }
    match first_char(text) {
        None => 0,
        Some(c) => if is_letter(c) || is_digit(c) {
            char_width(text)
        } else {
            0
        },
    }
}
