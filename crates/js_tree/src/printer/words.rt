//! Long words of a text.

ghost use Rattle.std.specs.Prelude.{◌≡◌};
ghost use Rattle.js_tree.specs.Printed.{char_code_at_word, substring_word, dictionary_word, string_word, from_char_code_word, catch_word};

#[tactic(auto, unfolding(crate::specs::Printed::char_code_at_word))]
pub fn char_code_at_word() -> &'static [u8]
    ensures { result.now ≡ char_code_at_word }
{
    b".charCodeAt("
}

#[tactic(auto, unfolding(crate::specs::Printed::substring_word))]
pub fn substring_word() -> &'static [u8]
    ensures { result.now ≡ substring_word }
{
    b".substring("
}

#[tactic(auto, unfolding(crate::specs::Printed::dictionary_word))]
pub fn dictionary_word() -> &'static [u8]
    ensures { result.now ≡ dictionary_word }
{
    b"Object.create(null)"
}

#[tactic(auto, unfolding(crate::specs::Printed::string_word))]
pub fn string_word() -> &'static [u8]
    ensures { result.now ≡ string_word }
{
    b"String("
}

#[tactic(auto, unfolding(crate::specs::Printed::from_char_code_word))]
pub fn from_char_code_word() -> &'static [u8]
    ensures { result.now ≡ from_char_code_word }
{
    b"String.fromCharCode("
}

#[tactic(auto, unfolding(crate::specs::Printed::catch_word))]
pub fn catch_word() -> &'static [u8]
    ensures { result.now ≡ catch_word }
{
    b"catch($catch)"
}
