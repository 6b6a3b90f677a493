//! `break`, `continue`, `fallthrough`, and statements that are not built yet.
//!
//! Go, "Break statements", "Continue statements", "Fallthrough statements".

ghost use Rattle.std.specs.Prelude.{◌≡◌, ◌∷◌, [], Some, OnOk, List, option_map};
ghost use Rattle.go_core.specs.CoreView.{branch_of};
ghost use Rattle.go_core.specs.declared.statement.CoreStmt as statement;
ghost use Rattle.go_syntax.specs.View.{stmt_view};
ghost use Rattle.go_typing.specs.Answer.{flaw};
ghost use Rattle.go_operands.specs.declared.answers.answer.Flaw as faults;
ghost use Rattle.go_walk.specs.Left.{label_of, targets_of};
ghost use Rattle.go_typing.specs.Walk.{faulty};
ghost use Rattle.go_typing.specs.Statements as go;
ghost use Rattle.go_assign.specs.Outcome.{Does};
ghost use Rattle.go_assign.specs.Leaving.{leaving};

use gj_base::{NoMemory, Place};
use go_core::statement::{BranchKind, CoreStmt, Label};
use go_operands::answers::answer::Flaw;
use go_operands::answers::rule::and_flaw;
use go_syntax::tree::{Name, Stmt};
use go_walk::labels::Targets;
use go_walk::stmt_gone::more::and_stmt;
use go_walk::stmt_nodes::simple::branch as branched;
use go_walk::walk::Walk;
use go_walk::walk::uses::use_stmt;

/// A fault alone.
#[tactic(auto, using(crate::proofs::BranchLemmas::fault_does))]
pub fn refused(walk: &Walk, flaws: &mut Vec<Flaw>, at: Place, code: u16) -> Result<(), NoMemory>
    ensures does { OnOk result ((out : List statement.CoreStmt) → Does (faulty (flaw at code ∷ [])) walk.now walk.now flaws.old.items flaws.new.items out out) }
{
    let _ = walk;
    and_flaw(*flaws.allocator(), flaws, at, code)?;
    Ok(())
}

#[tactic(auto, using(crate::proofs::BranchLemmas::branch_does))]
fn leave(
    walk: &Walk,
    out: &mut Vec<CoreStmt>,
    at: Place,
    kind: BranchKind,
    label: Label,
) -> Result<(), NoMemory>
    ensures does { OnOk result ((fs : List faults.Flaw) → Does (go.branch_did at (branch_of kind) (Some label.0)) walk.now walk.now fs fs out.old.items out.new.items) }
{
    let _ = walk;
    let _ = at;
    match branched(*out.allocator(), kind, label) {
        Ok(whole) => {
            and_stmt(out, whole)?;
            Ok(())
        }
        Err(error) => Err(error),
    }
}

// To what was found, if it was (89).
fn branch_to(
    walk: &Walk,
    flaws: &mut Vec<Flaw>,
    out: &mut Vec<CoreStmt>,
    at: Place,
    kind: BranchKind,
    label: Option<Label>,
) -> Result<(), NoMemory>
    ensures does { OnOk result (Does (go.branch_did at (branch_of kind) (option_map label_of label)) walk.now walk.now flaws.old.items flaws.new.items out.old.items out.new.items) }
{
    match label {
        Some(label) => {
            leave(walk, out, at, kind, label)?;
            Ok(())
        }
        None => {
            refused(walk, flaws, at, 89)?;
            Ok(())
        }
    }
}

/// `break`, or `continue`, which is for loops alone.
#[tactic(auto, using(crate::proofs::BranchLemmas::branch_found))]
pub fn branch(
    walk: &Walk,
    flaws: &mut Vec<Flaw>,
    out: &mut Vec<CoreStmt>,
    targets: &Targets,
    at: Place,
    kind: BranchKind,
    loops: bool,
    n: &Option<Name>,
) -> Result<(), NoMemory>
    ensures does { OnOk result (Does (go.branch at (branch_of kind) loops n.now (leaving (targets_of targets.now))) walk.now walk.now flaws.old.items flaws.new.items out.old.items out.new.items) }
{
    match n {
        Some(n) => {
            let label = targets.named(loops, &n.text);
            branch_to(walk, flaws, out, n.place, kind, label)?;
            Ok(())
        }
        None => {
            let label = targets.innermost(loops);
            branch_to(walk, flaws, out, at, kind, label)?;
            Ok(())
        }
    }
}

/// A statement that isn't built yet (0).
#[tactic(auto, using(crate::proofs::BranchLemmas::unbuilt_does, crate::proofs::PassedLemmas::passes_env))]
pub fn not_built(
    walk: &mut Walk,
    flaws: &mut Vec<Flaw>,
    at: Place,
    s: &Stmt,
) -> Result<(), NoMemory>
    ensures does { OnOk result ((out : List statement.CoreStmt) → Does (go.not_built at (stmt_view s.now)) walk.old walk.new flaws.old.items flaws.new.items out out) }
{
    use_stmt(walk, s)?;
    and_flaw(*flaws.allocator(), flaws, at, 0)?;
    Ok(())
}
