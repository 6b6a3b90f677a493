//! What is told of names that can't be found without themselves (74), each at its first declaration.

ghost use Rattle.std.specs.Prelude.{◌≡◌, ◌∷◌, ◌++◌, [], List, OnOk, false, get_or, map, if◌then◌else◌};
ghost use Rattle.go_operands.specs.AnswerView.{flaw_view};
ghost use Rattle.go_items.specs.ItemView.{item_view};
ghost use Rattle.go_typing.specs.Cycles.{cycles_from};
ghost use Rattle.go_typing.specs.Answer.{flaw};
ghost use Rattle.go_typing.specs.Env.{Bind, is_blank};
ghost use Rattle.go_items.specs.Leads.{Tells};

use crate::items::item::{Item, name_of};
use crate::needed::called::is_blank;
use gj_base::NoMemory;
use go_operands::answers::answer::Flaw;
use go_operands::answers::rule::and_flaw;
use go_syntax::tree::Name;
use go_walk::sets::NameSet;
use std::alloc::Global;

fn is_lasting_at(is_lasting: &[bool], i: usize) -> bool
    ensures value { result ≡ get_or is_lasting.now i false }
{
    if i < is_lasting.len() {
        return is_lasting[i];
    }
    false
}

// The first declaration of a name is told where it is one that needs itself.
fn told_one(
    alloc: Global,
    flaws: &mut Vec<Flaw>,
    n: &Name,
    stood: bool,
    is_lasting: bool,
) -> Result<(), NoMemory>
    ensures value { OnOk result (map flaw_view flaws.new.items ≡ map flaw_view flaws.old.items ++ (if is_blank n.now.text then [] else if stood then [] else if is_lasting then flaw n.now.place 74 ∷ [] else [])) }
{
    if is_blank(&n.text) {
        return Ok(());
    }
    if stood {
        return Ok(());
    }
    if is_lasting {
        return and_flaw(alloc, flaws, n.place, 74);
    }
    Ok(())
}

/// Adds what is told of these declarations, by which ones need themselves.
pub fn cycles_told<'a>(
    alloc: Global,
    flaws: &mut Vec<Flaw>,
    items: &[Item<'a>],
    is_lasting: &[bool],
) -> Result<(), NoMemory>
    ensures value { OnOk result ((ss : List (List Bind)) → Tells ss (map item_view items.now) is_lasting.now → map flaw_view flaws.new.items ≡ map flaw_view flaws.old.items ++ cycles_from ss (map item_view items.now) [] (map item_view items.now)) }
{
    let mut seen = NameSet::new(alloc);
    for i in 0..items.len() {
        let name = name_of(&items[i]);
        let stood = seen.has(&name.text);
        let is_told = is_lasting_at(is_lasting, i);
        told_one(alloc, flaws, name, stood, is_told)?;
        seen.insert(&name.text)?;
    }
    Ok(())
}
