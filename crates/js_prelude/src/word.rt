//! Words of a text.

/// Whether a byte stands in names.
pub fn is_word_byte(b: u8) -> bool {
    b.is_ascii_alphanumeric() || b == b'_' || b == b'$'
}

// How many bytes at the beginning stand in names, or don't.
fn run(text: &[u8], in_names: bool) -> usize {
    let n = text.len();
    for i in 0..n {
        if is_word_byte(text[i]) != in_names {
            return i;
        }
    }
    n
}

/// The first word of a text, and what follows it; no bytes where there is none.
pub fn first_word(text: &[u8]) -> (&[u8], &[u8]) {
    let from = run(text, false).min(text.len());
    let text = &text[from..];
    let many = run(text, true).min(text.len());
    (&text[..many], &text[many..])
}

/// The number of a run-time panic whose value has this name; else 0.
pub fn panic_number(name: &[u8]) -> usize {
    match name {
        b"$p1" => 1,
        b"$p2" => 2,
        b"$p3" => 3,
        b"$p4" => 4,
        b"$p5" => 5,
        b"$p6" => 6,
        b"$p7" => 7,
        b"$p8" => 8,
        b"$p9" => 9,
        b"$p10" => 10,
        b"$p11" => 11,
        b"$p12" => 12,
        _ => 0,
    }
}
