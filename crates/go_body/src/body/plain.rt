//! Statements without statements in them.
//!
//! Go, "Statements".

ghost use Rattle.std.specs.Prelude.{◌≡◌, ℕ, false, OnOk, List, Option};
ghost use Rattle.go_syntax.specs.View.{stmt_view};
ghost use Rattle.go_calls.specs.Words.{types_of};
ghost use Rattle.go_walk.specs.Left.{targets_of};
ghost use Rattle.go_typing.specs.Statements as go;
ghost use Rattle.go_assign.specs.Outcome.{Does};
ghost use Rattle.go_define.specs.AroundView.{around_of};
ghost use Rattle.go_body.specs.Bodies.{Ready};
ghost use Rattle.go_body.specs.Forms.{has_statements};

use crate::leaf::spare::spare;
use crate::leaf::stand::stand;
use crate::local::decl::decl;
use gj_base::NoMemory;
use go_assign::assign::top::assign;
use go_assign::branch::branch::{branch, not_built, refused};
use go_core::statement::{BranchKind, CoreStmt};
use go_define::define::top::define;
use go_define::simple::Around;
use go_define::simple::expression::expression;
use go_define::simple::returned::returned;
use go_define::update::top::{step, update};
use go_operands::answers::answer::Flaw;
use go_syntax::tree::{Stmt, StmtForm};
use go_walk::labels::Targets;
use go_walk::walk::Walk;

/// A statement that has no statements in it.
pub fn plain(
    walk: &mut Walk,
    flaws: &mut Vec<Flaw>,
    out: &mut Vec<CoreStmt>,
    around: &Around,
    targets: &Targets,
    s: &Stmt,
) -> Result<(), NoMemory>
    requires ready { Ready around.now walk.old }
    requires plain { has_statements (stmt_view s.now) ≡ false }
    ensures does { OnOk result ((label : Option (List ℕ)) → Does (go.stmt (stmt_view s.now) (around_of (types_of walk.old.env) around.now (targets_of targets.now) label)) walk.old walk.new flaws.old.items flaws.new.items out.old.items out.new.items) }
{
    match &*s.form {
        StmtForm::Empty => Ok(()),
        StmtForm::Expr(xs) => {
            expression(walk, flaws, out, s.place, xs.as_slice())?;
            Ok(())
        }
        StmtForm::IncDec(xs, up) => {
            step(walk, s.place, xs.as_slice(), *up, flaws, out)?;
            Ok(())
        }
        StmtForm::Assign(xs, op, ys) => match op {
            Some(op) => {
                update(walk, s.place, *op, xs.as_slice(), ys.as_slice(), flaws, out)?;
                Ok(())
            }
            None => {
                assign(walk, s.place, xs.as_slice(), ys.as_slice(), flaws, out)?;
                Ok(())
            }
        },
        StmtForm::Define(xs, ys) => {
            let names = walk.declared.len();
            let before = flaws.len();
            define(walk, s.place, xs.as_slice(), ys.as_slice(), flaws, out)?;
            spare(walk, flaws.as_slice(), names, before)?;
            Ok(())
        }
        StmtForm::Decl(d) => {
            let names = walk.declared.len();
            let before = flaws.len();
            let done = out.len();
            decl(walk, flaws, out, d)?;
            spare(walk, flaws.as_slice(), names, before)?;
            stand(out, done)?;
            Ok(())
        }
        StmtForm::Return(ys) => {
            returned(walk, flaws, out, around, s.place, ys.as_slice())?;
            Ok(())
        }
        StmtForm::Break(n) => {
            branch(
                walk,
                flaws,
                out,
                targets,
                s.place,
                BranchKind::Break,
                false,
                n,
            )?;
            Ok(())
        }
        StmtForm::Continue(n) => {
            branch(
                walk,
                flaws,
                out,
                targets,
                s.place,
                BranchKind::Continue,
                true,
                n,
            )?;
            Ok(())
        }
        // One that ends a clause is taken off there (91).
        StmtForm::Fallthrough => {
            refused(walk, flaws, s.place, 91)?;
            Ok(())
        }
        StmtForm::Send(_, _) => {
            not_built(walk, flaws, s.place, s)?;
            Ok(())
        }
        StmtForm::Range(_, _, _, _) => {
            not_built(walk, flaws, s.place, s)?;
            Ok(())
        }
        StmtForm::TypeSwitch(_, _, _, _) => {
            not_built(walk, flaws, s.place, s)?;
            Ok(())
        }
        StmtForm::Select(_) => {
            not_built(walk, flaws, s.place, s)?;
            Ok(())
        }
        StmtForm::Go(_) => {
            not_built(walk, flaws, s.place, s)?;
            Ok(())
        }
        StmtForm::Defer(_) => {
            not_built(walk, flaws, s.place, s)?;
            Ok(())
        }
        StmtForm::Block(_) => unreachable!(),
        StmtForm::If(_, _, _, _) => unreachable!(),
        StmtForm::For(_, _, _, _) => unreachable!(),
        StmtForm::Switch(_, _, _) => unreachable!(),
        StmtForm::Labeled(_, _) => unreachable!(),
    }
}
