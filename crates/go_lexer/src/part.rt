//! Parts of texts.

ghost use Rattle.std.specs.Prelude.{◌≡◌, drop, take};

/// The text after so many bytes.
#[inline(always)]
pub(crate) fn after(text: &[u8], n: usize) -> &[u8]
    ensures { result.now ≡ drop n text.now }
{
    if n <= text.len() {
        &text[n..]
    } else {
        &text[text.len()..]
    }
}

/// The first so many bytes of the text.
#[inline(always)]
pub(crate) fn front(text: &[u8], n: usize) -> &[u8]
    ensures { result.now ≡ take n text.now }
{
    if n <= text.len() { &text[..n] } else { text }
}
