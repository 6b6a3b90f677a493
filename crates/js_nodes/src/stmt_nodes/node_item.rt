//! What stands at a script's top, in order.

ghost use Rattle.std.specs.Prelude.{◌≡◌, MatchResult, ◌++◌, ◌∷◌, []};

use gj_base::Text;
use js_grammar::ReadRefusal;
use js_tree::JsItem;

/// One more function or variable.
pub fn add(items: &mut Vec<JsItem>, item: JsItem) -> Result<(), ReadRefusal>
    ensures { MatchResult result (λ u. items.new.items ≡ items.old.items ++ item ∷ []) (λ z. z ≡ ReadRefusal.NoMemory) }
{
    match items.push(item) {
        Ok(()) => Ok(()),
        Err(_) => Err(ReadRefusal::NoMemory),
    }
}

/// One more name.
pub fn add_name(names: &mut Vec<Text>, x: Text) -> Result<(), ReadRefusal>
    ensures { MatchResult result (λ u. names.new.items ≡ names.old.items ++ x ∷ []) (λ z. z ≡ ReadRefusal.NoMemory) }
{
    match names.push(x) {
        Ok(()) => Ok(()),
        Err(_) => Err(ReadRefusal::NoMemory),
    }
}
