//! Where a function's body ends.
//!
//! Go, "Declarations and scope", "Function declarations".

ghost use Rattle.std.specs.Prelude.{◌≡◌, ◌<◌, ◌+◌, List, false, map, option_map};
ghost use Rattle.go_type.specs.Levels.{trees_of};
ghost use Rattle.go_type.specs.Tree.{Ty};
ghost use Rattle.go_core.specs.CoreView.{stmt_view, func_view};
ghost use Rattle.go_typing.specs.Scopes.{visible, without_last};
ghost use Rattle.go_operands.specs.EnvView.{table_of, env_of};
ghost use Rattle.go_typing.specs.Walk.{Did};
ghost use Rattle.go_typing.specs.Functions.{params_typed, results_typed, results_or_none};
ghost use Rattle.go_decls.specs.SigView.{sig_found};
ghost use Rattle.go_walk.specs.WalkView.{walk_of, depth};
ghost use Rattle.go_decls.specs.Heads.{function_with};
ghost use Rattle.go_decls.specs.HeadView.{head_view};

use crate::heads::head::Head;
use crate::signatures::SigTypes;
use go_core::node::Vars;
use go_core::program::{Func, VarIds};
use go_core::statement::CoreStmt;
use go_type::lists::Ids;
use go_type::types::Sig;
use go_walk::stmt_nodes::branch::body;
use go_walk::walk::Walk;
use go_walk::walk::scopes::pop;
use std::alloc::Global;

// A signature of which something is told has no types.
fn core_sig(alloc: Global, sig: Option<SigTypes>) -> Sig
    ensures params { (ts : List Ty) → trees_of ts result.params ≡ params_typed (option_map (sig_found ts) sig) }
    ensures results { (ts : List Ty) → trees_of ts result.results ≡ results_or_none (results_typed (option_map (sig_found ts) sig)) }
    ensures variadic { result.variadic ≡ false }
{
    match sig {
        None => Sig {
            params: Ids::new(alloc),
            results: Ids::new(alloc),
            variadic: false,
        },
        Some(types) => {
            let SigTypes { params, results } = types;
            Sig {
                params: Ids::from_vec(params),
                results: Ids::from_vec(results),
                variadic: false,
            }
        }
    }
}

/// Closes a function's own scope: the function with these statements as its body.
pub fn end(alloc: Global, walk: &mut Walk, head: Head<'_>, stmts: Vec<CoreStmt>) -> Func
    requires depth { 0 < depth walk.old }
    ensures func { (ts : List Ty) (d : Did) → map (stmt_view ts) stmts.items ≡ d.core → walk_of ts walk.old ≡ d.walk → func_view ts result ≡ function_with (head_view ts head.entry) d }
    ensures scopes { visible (env_of walk.new.env) ≡ without_last (visible (env_of walk.old.env)) }
    ensures depth { depth walk.new + 1 ≡ depth walk.old }
    ensures table { table_of walk.new.env ≡ table_of walk.old.env }
    ensures next { walk.new.next ≡ walk.old.next }
{
    let Head {
        place,
        name,
        params: _params,
        types: _types,
        sig,
        named_results: _named,
        too_far: _far,
        body: _body,
    } = head;
    pop(walk);
    let vars = walk.take_vars();
    Func {
        name,
        sig: core_sig(alloc, sig),
        vars: Vars { items: vars },
        captured: VarIds {
            items: Vec::new(alloc),
        },
        body: body(stmts),
        place,
    }
}
