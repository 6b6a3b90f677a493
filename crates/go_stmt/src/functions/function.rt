//! One function.

ghost use Rattle.std.specs.Prelude.{◌≡◌, ℕ, List, IfOk, OnOk, IfSome, option_map};
ghost use Rattle.go_type.specs.Tree.{Ty};
ghost use Rattle.go_typing.specs.Scopes.{visible};
ghost use Rattle.go_operands.specs.EnvView.{table_of, env_of};
ghost use Rattle.go_typing.specs.Functions.{results_typed};
ghost use Rattle.go_decls.specs.SigView.{sig_found, SigFoundBelow};
ghost use Rattle.go_typing.specs.Walk as go;
ghost use Rattle.go_walk.specs.WalkView.{depth};
ghost use Rattle.go_define.specs.AroundView as around;
ghost use Rattle.go_decls.specs.HeadView.{IsReady};
ghost use Rattle.go_stmt.specs.Done.{FunctionDone};
ghost use Rattle.go_stmt.specs.Start.{CanStart};

use gj_base::NoMemory;
use go_body::body::function_body;
use go_core::program::Func;
use go_decls::heads::Head;
use go_decls::heads::begin::begin;
use go_decls::heads::end::end;
use go_decls::signatures::SigTypes;
use go_define::simple::Around;
use go_operands::answers::answer::Flaw;
use go_type::types::TypeId;
use go_walk::walk::Walk;
use std::alloc::Global;

// The types of the results, where nothing is told of the signature.
fn results_of(sig: &Option<SigTypes>) -> Option<&[TypeId]>
    ensures value { (ts : List Ty) → around.results_of ts result ≡ results_typed (option_map (sig_found ts) sig.now) }
    ensures within { (n : ℕ) → IfSome sig.now (SigFoundBelow n) → around.ResultsBelow n result }
{
    match sig {
        Some(types) => Some(types.results.as_slice()),
        None => None,
    }
}

/// A function with its body, between two others.
pub fn function(
    alloc: Global,
    walk: &mut Walk,
    flaws: &mut Vec<Flaw>,
    head: Head<'_>,
) -> Result<Func, NoMemory>
    requires start { CanStart walk.old head }
    ensures done { IfOk result (λ f. (w : go.Walk) → visible (env_of walk.old.env) ≡ w.scopes → IsReady (table_of walk.old.env) w head.entry → FunctionDone w walk.old head.entry walk.new flaws.old.items flaws.new.items f) }
    ensures depth { OnOk result (depth walk.new ≡ depth walk.old) }
{
    begin(walk, &head)?;
    let none = Vec::new(alloc);
    let around = Around {
        results: results_of(&head.sig),
        named: head.named_results,
        wrong_labels: none.as_slice(),
        too_far: head.too_far,
    };
    match function_body(walk, flaws, &around, head.body) {
        Ok(stmts) => Ok(end(alloc, walk, head, stmts)),
        Err(error) => Err(error),
    }
}
