//! Names.

ghost use Rattle.std.specs.Prelude.{◌≡◌, ◌++◌, IfOk};
ghost use Rattle.std.specs.Fmt.{decimal};
ghost use Rattle.js_pool.specs.Names.{name_bytes};

use gj_base::{NoMemory, Text};
use itoa::Buffer;
use std::alloc::Global;

/// A name: a word of the compiler's own, alone or with a number after it.
#[derive(Clone, Copy)]
pub enum Name {
    Word(&'static [u8]),
    Numbered(&'static [u8], u32),
}

impl Name {
    /// The text of a name.
    pub fn text(self, alloc: Global) -> Result<Text, NoMemory>
        ensures { IfOk result (λ t. t ≡ name_bytes self) }
    {
        match self {
            Name::Word(word) => Text::from_slice(alloc, word),
            Name::Numbered(word, n) => numbered(alloc, word, n),
        }
    }
}

fn numbered(alloc: Global, word: &[u8], n: u32) -> Result<Text, NoMemory>
    ensures { IfOk result (λ t. t ≡ word.now ++ decimal n) }
{
    let mut bytes = Vec::from_slice(alloc, word)?;
    let mut room = Buffer::new();
    bytes.extend_from_slice(room.format(n).as_bytes())?;
    Ok(Text::from_vec(bytes))
}
