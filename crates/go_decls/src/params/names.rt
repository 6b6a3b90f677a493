//! What is told of the names of parameters and results: each is declared once (82).

ghost use Rattle.std.specs.Prelude.{◌≡◌, ◌<◌, ◌++◌, ◌∷◌, [], List, Option, Some, OnOk, IfOk, length, map, option_map};
ghost use Rattle.go_operands.specs.AnswerView.{flaw_view};
ghost use Rattle.go_items.specs.ParamView.{grouped_view, named_view};
ghost use Rattle.go_typing.specs.Signature.{bound, inside, name_flaws, names_flaws};
ghost use Rattle.go_typing.specs.Walk as go;
ghost use Rattle.go_type.specs.Tree.{Ty};
ghost use Rattle.go_typing.specs.Scopes.{last_scope};
ghost use Rattle.go_decls.specs.Seen.{HasNames};

use gj_base::{NoMemory, Place, Text};
use go_items::items::param::{Grouped, Named};
use go_operands::answers::answer::Flaw;
use go_syntax::tree::Name;
use go_walk::labels::blank::is_blank;
use go_walk::labels::flaw::named_flaw;
use go_walk::sets::NameSet;
use std::alloc::Global;

/// A name of its own, with a copy of the text.
pub fn owned(place: Place, text: &Text) -> Result<Name, NoMemory>
    ensures value { IfOk result (λ n. n ≡ record { place = place; text = text.now }) }
{
    let text = text.clone()?;
    Ok(Name { place, text })
}

fn told_again(flaws: &mut Vec<Flaw>, n: Named<'_>) -> Result<(), NoMemory>
    ensures told { OnOk result (map flaw_view flaws.new.items ≡ map flaw_view flaws.old.items ++ record { place = (n).entry.place; code = 82; name = (n).entry.text.now } ∷ []) }
{
    let n = owned(n.place, n.text)?;
    named_flaw(flaws, &n, 82)
}

// A name that isn't `_`: it is told where it stood before.
fn and_named<'a>(
    flaws: &mut Vec<Flaw>,
    seen: &mut NameSet<'a>,
    n: Named<'a>,
) -> Result<(), NoMemory>
    ensures told { OnOk result ((v : go.Walk) → HasNames seen.old (last_scope v.scopes) → map flaw_view flaws.new.items ≡ map flaw_view flaws.old.items ++ name_flaws (Some (named_view (n).entry)) v) }
    ensures seen { OnOk result ((v : go.Walk) (u : Option Ty) → 0 < length v.scopes → HasNames seen.old (last_scope v.scopes) → HasNames seen.new (last_scope (bound (Some (named_view (n).entry)) u v).scopes)) }
{
    if is_blank(n.text) {
        return Ok(());
    }
    if seen.has(n.text) {
        told_again(flaws, n)?;
        return Ok(());
    }
    seen.insert(n.text)?;
    Ok(())
}

fn and_name<'a>(
    flaws: &mut Vec<Flaw>,
    seen: &mut NameSet<'a>,
    name: Option<Named<'a>>,
) -> Result<(), NoMemory>
    ensures told { OnOk result ((v : go.Walk) → HasNames seen.old (last_scope v.scopes) → map flaw_view flaws.new.items ≡ map flaw_view flaws.old.items ++ name_flaws (option_map named_view (name).entry) v) }
    ensures seen { OnOk result ((v : go.Walk) (u : Option Ty) → 0 < length v.scopes → HasNames seen.old (last_scope v.scopes) → HasNames seen.new (last_scope (bound (option_map named_view (name).entry) u v).scopes)) }
{
    match name {
        None => Ok(()),
        Some(n) => {
            and_named(flaws, seen, n)?;
            Ok(())
        }
    }
}

/// Adds what is told of the names of these parameters and results, which stand in a function's own scope.
pub fn names_told(
    alloc: Global,
    flaws: &mut Vec<Flaw>,
    params: &[Grouped<'_>],
) -> Result<(), NoMemory>
    ensures told { OnOk result ((w : go.Walk) → map flaw_view flaws.new.items ≡ map flaw_view flaws.old.items ++ names_flaws w (map grouped_view params.now) (inside w)) }
{
    let mut seen = NameSet::new(alloc);
    for p in params {
        and_name(flaws, &mut seen, p.name)?;
    }
    Ok(())
}
