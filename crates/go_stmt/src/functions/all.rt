//! All functions, one after the other.

ghost use Rattle.std.specs.Prelude.{◌≡◌, ◌≤◌, ◌++◌, [], List, IfOk, OnOk, map, reverse};
ghost use Rattle.go_type.specs.Table.{size};
ghost use Rattle.go_type.specs.Tree.{Ty};
ghost use Rattle.go_core.specs.CoreView.{func_view};
ghost use Rattle.go_typing.specs.Scopes.{visible};
ghost use Rattle.go_operands.specs.EnvView.{table_of, env_of};
ghost use Rattle.go_operands.specs.AnswerView.{flaw_view};
ghost use Rattle.go_walk.specs.WalkView.{walk_outside, Keeps};
ghost use Rattle.go_body.specs.Plain.{IsPlain};
ghost use Rattle.go_decls.specs.Heads.{functions_by};
ghost use Rattle.go_decls.specs.HeadView.{head_view, now_of, AreReady};
ghost use Rattle.go_stmt.specs.Done.{FunctionsLeft};

use crate::functions::function::function;
use gj_base::NoMemory;
use go_core::program::Func;
use go_decls::heads::Head;
use go_items::hidden::{and_func, gone_funcs};
use go_operands::answers::answer::Flaw;
use go_walk::walk::Walk;
use std::alloc::Global;

// The functions that are left, the next of them last.
fn all_functions(
    alloc: Global,
    walk: &mut Walk,
    flaws: &mut Vec<Flaw>,
    mut heads: Vec<Head<'_>>,
    done: &mut Vec<Func>,
) -> Result<(), NoMemory>
    requires ready { AreReady (table_of walk.old.env) (walk_outside walk.old.env) heads.items }
    requires plain { IsPlain (visible (env_of walk.old.env)) }
    requires none { done.old.items ≡ [] }
    ensures left { OnOk result (FunctionsLeft (walk_outside walk.old.env) walk.old [] (reverse heads.entry.items) walk.new flaws.old.items flaws.new.items done.new.items) }
{
    while let Some(head) = heads.pop() {
        match function(alloc, walk, flaws, head) {
            Ok(f) => and_func(done, f)?,
            Err(error) => return Err(error),
        }
    }
    Ok(())
}

/// The functions of these heads in order, in the scope of their package.
pub fn functions(
    alloc: Global,
    walk: &mut Walk,
    flaws: &mut Vec<Flaw>,
    mut heads: Vec<Head<'_>>,
) -> Result<Vec<Func>, NoMemory>
    requires ready { AreReady (table_of walk.old.env) (walk_outside walk.old.env) heads.items }
    requires plain { IsPlain (visible (env_of walk.old.env)) }
    ensures funcs { IfOk result (λ fs. (ts : List Ty) → Keeps (table_of walk.new.env) ts → map (func_view ts) fs.items ≡ (functions_by (walk_outside walk.old.env) (map (head_view ts) heads.entry.items) (now_of walk.old)).funcs) }
    ensures told { OnOk result ((ts : List Ty) → Keeps (table_of walk.new.env) ts → map flaw_view flaws.new.items ≡ map flaw_view flaws.old.items ++ (functions_by (walk_outside walk.old.env) (map (head_view ts) heads.entry.items) (now_of walk.old)).flaws) }
    ensures between { OnOk result ((ts : List Ty) → Keeps (table_of walk.new.env) ts → now_of walk.new ≡ (functions_by (walk_outside walk.old.env) (map (head_view ts) heads.entry.items) (now_of walk.old)).between) }
    ensures scopes { OnOk result (visible (env_of walk.new.env) ≡ visible (env_of walk.old.env)) }
    ensures back { OnOk result ((ts : List Ty) → Keeps (table_of walk.new.env) ts → Keeps (table_of walk.old.env) ts) }
    ensures counts { OnOk result (size (table_of walk.old.env) ≤ size (table_of walk.new.env)) }
{
    heads.reverse();
    let mut done = Vec::new(alloc);
    match all_functions(alloc, walk, flaws, heads, &mut done) {
        Ok(()) => Ok(done),
        Err(error) => {
            gone_funcs(done);
            Err(error)
        }
    }
}
