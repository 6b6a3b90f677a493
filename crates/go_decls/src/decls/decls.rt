//! Declarations, one after the other.

ghost use Rattle.std.specs.Prelude.{◌≡◌, ◌++◌, ◌∷◌, None, List, OnOk, map};
ghost use Rattle.go_syntax.specs.Tree as t;
ghost use Rattle.go_syntax.specs.View.{decl_view, file_view, type_spec_view, joined};
ghost use Rattle.go_operands.specs.EnvView.{env_of};
ghost use Rattle.go_operands.specs.AnswerView.{flaw_view};
ghost use Rattle.go_items.specs.ItemView.{decls_of};
ghost use Rattle.go_typing.specs.Told.{types_told, decls_told};
ghost use Rattle.go_walk.specs.WalkView.{walk_outside};
ghost use Rattle.go_expr.specs.Raw.{Grows};

use crate::decls::constants::specs_told;
use crate::decls::functions::function_told;
use gj_base::NoMemory;
use go_assign::constants::type_found;
use go_assign::valued::move_flaws;
use go_operands::answers::answer::Flaw;
use go_operands::answers::rule::and_flaw;
use go_operands::scopes::Env;
use go_syntax::tree::{Decl, DeclForm, File, TypeSpec};
use std::alloc::Global;

fn types_told(
    alloc: Global,
    env: &mut Env,
    flaws: &mut Vec<Flaw>,
    specs: &[TypeSpec],
) -> Result<(), NoMemory>
    ensures told { OnOk result (map flaw_view flaws.new.items ≡ map flaw_view flaws.old.items ++ types_told (walk_outside env.old) (joined (map type_spec_view specs.now) t.NoTypes)) }
    ensures grows { OnOk result (Grows env.old env.new) }
{
    for spec in specs {
        let found = type_found(alloc, env, &spec.ty)?;
        move_flaws(flaws, found.flaws)?;
    }
    Ok(())
}

// A declaration. Package variables and methods are not built yet.
#[tactic(auto, using(go_assign::proofs::GrowLemmas::grows_not))]
fn decl_told(alloc: Global, env: &mut Env, flaws: &mut Vec<Flaw>, d: &Decl) -> Result<(), NoMemory>
    requires none { (env_of env.old).iota ≡ None }
    ensures told { OnOk result ((rest : List t.Decl) → map flaw_view flaws.new.items ++ decls_told (walk_outside env.old) rest ≡ map flaw_view flaws.old.items ++ decls_told (walk_outside env.old) (decl_view d.now ∷ rest)) }
    ensures grows { OnOk result (Grows env.old env.new) }
{
    match &*d.form {
        DeclForm::Const(specs) => {
            specs_told(alloc, env, flaws, d.place, specs.as_slice())?;
            Ok(())
        }
        DeclForm::TypeDecl(specs) => {
            types_told(alloc, env, flaws, specs.as_slice())?;
            Ok(())
        }
        DeclForm::Var(_) => {
            and_flaw(alloc, flaws, d.place, 0)?;
            Ok(())
        }
        DeclForm::Func(None, n, sig, _) => {
            function_told(alloc, env, flaws, d.place, n, sig)?;
            Ok(())
        }
        DeclForm::Func(Some(_), _, _, _) => {
            and_flaw(alloc, flaws, d.place, 0)?;
            Ok(())
        }
    }
}

fn file_told(
    alloc: Global,
    env: &mut Env,
    flaws: &mut Vec<Flaw>,
    decls: &[Decl],
) -> Result<(), NoMemory>
    requires none { (env_of env.old).iota ≡ None }
    ensures told { OnOk result ((rest : List t.Decl) → map flaw_view flaws.new.items ++ decls_told (walk_outside env.old) rest ≡ map flaw_view flaws.old.items ++ decls_told (walk_outside env.old) (map decl_view decls.now ++ rest)) }
    ensures grows { OnOk result (Grows env.old env.new) }
{
    for d in decls {
        decl_told(alloc, env, flaws, d)?;
    }
    Ok(())
}

/// Adds what is told of the declarations of these files, by what is known of the package, where no
/// constant specification is typed.
pub fn decls_told(
    alloc: Global,
    env: &mut Env,
    flaws: &mut Vec<Flaw>,
    files: &[File],
) -> Result<(), NoMemory>
    requires none { (env_of env.old).iota ≡ None }
    ensures told { OnOk result (map flaw_view flaws.new.items ≡ map flaw_view flaws.old.items ++ decls_told (walk_outside env.old) (decls_of (map file_view files.now))) }
    ensures grows { OnOk result (Grows env.old env.new) }
{
    for file in files {
        file_told(alloc, env, flaws, file.decls.as_slice())?;
    }
    Ok(())
}
