//! Declarations one after the other.

ghost use Rattle.std.specs.Prelude.{◌≡◌, ◌<◌, ◌++◌, ◌∷◌, [], ℕ, List, true, IsTrue, IfOk, OnOk, length, map, if◌then◌else◌};
ghost use Rattle.go_syntax.specs.Tree as t;
ghost use Rattle.go_operands.specs.EnvView.{env_of};
ghost use Rattle.go_items.specs.ItemView.{item_view};
ghost use Rattle.go_decls.specs.State.{Named, Reached, Turned, Passed};

use crate::known::kinds::type_item;
use gj_base::NoMemory;
use go_items::items::item::Item;
use go_operands::scopes::Env;
use go_walk::sets::NameMap;
use std::alloc::Global;

/// The numbers of declarations that couldn't be typed, and whether another one was.
#[derive(Drop)]
pub struct Left {
    pub numbers: Vec<usize>,
    pub changed: bool,
}

// The declaration of a number, if there is one.
fn one<'a>(
    alloc: Global,
    env: &mut Env,
    items: &[Item<'a>],
    numbers: &NameMap<'a>,
    n: usize,
) -> Result<bool, NoMemory>
    ensures value { IfOk result (λ b. (ds : List t.Decl) (ns : List ℕ) → Named ds (map item_view items.now) numbers.now → Reached (map item_view items.now) ns (env_of env.old) → Turned b (map item_view items.now) ns n (env_of env.new)) }
{
    if n < items.len() {
        let is_typed = type_item(alloc, env, numbers, &items[n], n)?;
        return Ok(is_typed);
    }
    Ok(false)
}

// One more, which stays where it couldn't be typed.
fn and_one(left: &mut Left, n: usize, is_typed: bool) -> Result<(), NoMemory>
    ensures numbers { OnOk result (left.new.numbers.items ≡ (if is_typed then left.old.numbers.items else left.old.numbers.items ++ n ∷ [])) }
    ensures changed { OnOk result (left.new.changed ≡ (if is_typed then true else left.old.changed)) }
{
    if is_typed {
        left.changed = true;
        return Ok(());
    }
    left.numbers.push(n)?;
    Ok(())
}

/// Types those of these declarations that can be typed, each by what is known then.
pub fn pass<'a>(
    alloc: Global,
    env: &mut Env,
    items: &[Item<'a>],
    numbers: &NameMap<'a>,
    todo: &[usize],
) -> Result<Left, NoMemory>
    ensures value { IfOk result (λ l. (ds : List t.Decl) → Named ds (map item_view items.now) numbers.now → Passed (map item_view items.now) todo.now [] true (env_of env.old) → Passed (map item_view items.now) l.numbers.items [] l.changed (env_of env.new)) }
    ensures fewer { IfOk result (λ l. IsTrue l.changed → length l.numbers.items < length todo.now) }
{
    let mut left = Left {
        numbers: Vec::new(alloc),
        changed: false,
    };
    for n in todo {
        let is_typed = one(alloc, env, items, numbers, *n)?;
        and_one(&mut left, *n, is_typed)?;
    }
    Ok(left)
}
