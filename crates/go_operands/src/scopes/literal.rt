//! Which number a literal is.
//!
//! Go, "Integer literals", "Rune literals".

ghost use Rattle.std.specs.Prelude.{◌≡◌, ◌<◌, ◌≤◌, ◌+◌, ◌*◌, ◌-◌, ◌^◌, ℕ, pos, List, ◌∷◌, length};
ghost use Rattle.go_typing.specs.Literal as go;
ghost use Rattle.go_operands.specs.Whole.{cut, whole};

const LIMIT: u128 = 1 << 127;

// `0` to `9`, `A` to `F`, `a` to `f`.
fn digit(b: u8) -> u8
    ensures value { result ≡ go.digit_of b }
{
    if b < 58 {
        b.saturating_sub(48)
    } else if b < 97 {
        b - 55
    } else {
        b - 87
    }
}

// One more digit, up to 2^127.
fn grown(base: u8, value: u128, digit: u8) -> u128
    ensures value { result ≡ cut (value * base + digit) }
{
    match value.checked_mul(base as u128) {
        Some(product) => product.saturating_add(digit as u128).min(LIMIT),
        None => LIMIT,
    }
}

// The value of digits, up to 2^127; `_` counts for nothing.
fn digits(base: u8, text: &[u8]) -> u128
    requires { 1 ≤ base }
    ensures value { result ≡ cut (go.digits_from base 0 text.now) }
{
    let mut value: u128 = 0;
    for b in text {
        if *b != b'_' {
            value = grown(base, value, digit(*b));
        }
    }
    value
}

// What follows a `0`, up to 2^127.
fn after_zero(text: &[u8]) -> u128
    requires { 0 < length text.now }
    ensures value { (b : ℕ) (bs : List ℕ) → text.now ≡ b ∷ bs → result ≡ cut (go.after_zero b bs) }
{
    match text[0] {
        b'x' | b'X' => digits(16, &text[1..]),
        b'b' | b'B' => digits(2, &text[1..]),
        b'o' | b'O' => digits(8, &text[1..]),
        _ => digits(8, text),
    }
}

// The value of an integer literal, up to 2^127.
fn cut_value(text: &[u8]) -> u128
    ensures value { result ≡ cut (go.int_value text.now) }
{
    match text.len() {
        0 => 0,
        1 => digit(text[0]) as u128,
        _ if text[0] == b'0' => after_zero(&text[1..]),
        _ => digits(10, text),
    }
}

/// The number that an integer literal spells, where it is below 2^127. An untyped constant holds no
/// greater one.
pub fn int_value(text: &[u8]) -> Option<i128>
    ensures value { result ≡ whole (go.int_value text.now) }
{
    let value = cut_value(text);
    if value < LIMIT {
        Some(value as i128)
    } else {
        None
    }
}

// What a byte of UTF-8 adds: what it has above its mark, so many times.
fn part(b: u8, mark: u8, times: u32) -> u32
    requires { times ≤ 262144 }
    ensures value { result ≡ (b - mark) * times }
    ensures within { result ≤ 255 * times }
{
    b.saturating_sub(mark) as u32 * times
}

fn character(text: &[u8]) -> u32
    ensures value { result ≡ go.rune_value text.now }
{
    match text.len() {
        0 => 0,
        1 => text[0] as u32,
        2 => part(text[0], 192, 64) + part(text[1], 128, 1),
        3 => part(text[0], 224, 4096) + part(text[1], 128, 64) + part(text[2], 128, 1),
        _ => {
            let first = part(text[0], 240, 262_144) + part(text[1], 128, 4096);
            first + part(text[2], 128, 64) + part(text[3], 128, 1)
        }
    }
}

/// The character of a rune literal, whose value stands in UTF-8.
pub fn rune_value(text: &[u8]) -> i128
    ensures value { result ≡ pos (go.rune_value text.now) }
{
    character(text) as i128
}
