//! The body of a function.
//!
//! Go, "Terminating statements", "Declarations and scope", "Labeled statements".

ghost use Rattle.std.specs.Prelude.{[], None, IfOk, OnOk, map};
ghost use Rattle.go_syntax.specs.View.{block_view, stmt_view, stmts_of};
ghost use Rattle.go_syntax.specs.declared.tree.Block.{out-Block};
ghost use Rattle.go_calls.specs.Words.{types_of};
ghost use Rattle.go_typing.specs.Statements as go;
ghost use Rattle.go_assign.specs.Outcome.{Does};
ghost use Rattle.go_define.specs.AroundView.{around_of};
ghost use Rattle.go_body.specs.Bodies.{Ready};

use crate::body::stmt::stmts;
use crate::leaf::whole::{ends_with, places_of, told_whole};
use gj_base::NoMemory;
use go_core::statement::CoreStmt;
use go_define::simple::Around;
use go_operands::answers::answer::Flaw;
use go_syntax::tree::Block;
use go_walk::labels::{Targets, labels_told};
use go_walk::stmt_gone::gone::gone_stmts;
use go_walk::walk::Walk;
use go_walk::walk::parts::so_far;

// The statements, with what is around them.
fn body_stmts(
    walk: &mut Walk,
    flaws: &mut Vec<Flaw>,
    around: &Around,
    b: &Block,
) -> Result<Vec<CoreStmt>, NoMemory>
    requires ready { Ready around.now walk.old }
    ensures does { IfOk result (λ out. Does (go.stmts (stmts_of (map stmt_view (out-Block b.now).stmts.items)) (around_of (types_of walk.old.env) around.now [] None)) walk.old walk.new flaws.old.items flaws.new.items [] out.items) }
    ensures ready { OnOk result (Ready around.now walk.new) }
{
    let alloc = *flaws.allocator();
    let mut out = Vec::new(alloc);
    let mut targets = Targets::new(alloc);
    match stmts(
        walk,
        flaws,
        &mut out,
        around,
        &mut targets,
        false,
        b.stmts.as_slice(),
    ) {
        Ok(()) => Ok(out),
        Err(error) => {
            gone_stmts(out);
            Err(error)
        }
    }
}

/// The statements of a function's body, whose scope is open.
pub fn function_body(
    walk: &mut Walk,
    flaws: &mut Vec<Flaw>,
    around: &Around,
    b: &Block,
) -> Result<Vec<CoreStmt>, NoMemory>
    requires ready { Ready around.now walk.old }
    ensures does { IfOk result (λ out. Does (go.function_body (block_view b.now) (around_of (types_of walk.old.env) around.now [] None)) walk.old walk.new flaws.old.items flaws.new.items [] out.items) }
    ensures ready { OnOk result (Ready around.now walk.new) }
{
    let alloc = *flaws.allocator();
    let before = so_far(walk, flaws);
    let mut labels = Vec::new(alloc);
    labels_told(alloc, &mut labels, b)?;
    let wrong = places_of(alloc, labels.as_slice())?;
    let wrong_labels = wrong.as_slice();
    let inside = Around {
        results: around.results,
        named: around.named,
        wrong_labels,
        too_far: around.too_far,
    };
    let out = body_stmts(walk, flaws, &inside, b)?;
    let made = out.as_slice();
    let ends = ends_with(walk, made);
    match told_whole(walk, flaws, around, b.end, before, labels, ends) {
        Ok(()) => Ok(out),
        Err(error) => {
            gone_stmts(out);
            Err(error)
        }
    }
}
