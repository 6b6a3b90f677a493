//! Functions: signatures, `main` and `init`.

ghost use Rattle.std.specs.Prelude.{◌≡◌, ◌++◌, List, Some, OnOk, map, option_map};
ghost use Rattle.go_type.specs.Tree.{Ty};
ghost use Rattle.go_syntax.specs.View.{sig_view};
ghost use Rattle.go_operands.specs.AnswerView.{flaw_view};
ghost use Rattle.go_typing.specs.Told.{main_told, function_told};
ghost use Rattle.go_walk.specs.WalkView.{walk_outside};
ghost use Rattle.go_expr.specs.Raw.{Grows};
ghost use Rattle.go_decls.specs.SigView.{sig_found};

use crate::signatures::entry::main_takes;
use crate::signatures::{SigTypes, sig_types};
use gj_base::{NoMemory, Place};
use go_items::items::item::is_init;
use go_operands::answers::answer::Flaw;
use go_operands::answers::rule::and_flaw;
use go_operands::scopes::Env;
use go_syntax::tree::{Name, Sig};
use std::alloc::Global;

// `main` has no parameters and no results (99).
fn typed_told(
    alloc: Global,
    flaws: &mut Vec<Flaw>,
    n: &Name,
    types: &SigTypes,
) -> Result<(), NoMemory>
    ensures told { OnOk result ((ts : List Ty) → map flaw_view flaws.new.items ≡ map flaw_view flaws.old.items ++ main_told n.now (Some (sig_found ts types.now))) }
{
    if main_takes(n, types) {
        and_flaw(alloc, flaws, n.place, 99)?;
        return Ok(());
    }
    Ok(())
}

// Nothing more is told of a signature of which something is.
fn main_told(
    alloc: Global,
    flaws: &mut Vec<Flaw>,
    n: &Name,
    types: &Option<SigTypes>,
) -> Result<(), NoMemory>
    ensures told { OnOk result ((ts : List Ty) → map flaw_view flaws.new.items ≡ map flaw_view flaws.old.items ++ main_told n.now (option_map (sig_found ts) types.now)) }
{
    match types {
        None => Ok(()),
        Some(types) => {
            typed_told(alloc, flaws, n, types)?;
            Ok(())
        }
    }
}

/// Adds what is told of a function, its body aside. A function `init` is not built yet.
pub fn function_told(
    alloc: Global,
    env: &mut Env,
    flaws: &mut Vec<Flaw>,
    at: Place,
    n: &Name,
    sig: &Sig,
) -> Result<(), NoMemory>
    ensures told { OnOk result (map flaw_view flaws.new.items ≡ map flaw_view flaws.old.items ++ function_told at n.now (sig_view sig.now) (walk_outside env.old)) }
    ensures grows { OnOk result (Grows env.old env.new) }
{
    if is_init(n) {
        and_flaw(alloc, flaws, at, 0)?;
        return Ok(());
    }
    let types = sig_types(alloc, env, flaws, sig)?;
    main_told(alloc, flaws, n, &types)?;
    Ok(())
}
