//! Declarations in functions.
//!
//! Go, "Declarations and scope".

ghost use Rattle.std.specs.Prelude.{◌<◌, OnOk};
ghost use Rattle.go_syntax.specs.View.{decl_view};
ghost use Rattle.go_calls.specs.Words.{scopes_of};
ghost use Rattle.go_typing.specs.Declare.{decl};
ghost use Rattle.go_walk.specs.WalkView.{depth};
ghost use Rattle.go_assign.specs.Outcome.{Does};
ghost use Rattle.go_body.specs.Plain.{IsPlain};

use crate::local::types::type_specs;
use crate::local_consts::const_specs;
use crate::local_vars::var_specs;
use gj_base::NoMemory;
use go_assign::branch::branch::refused;
use go_core::statement::CoreStmt;
use go_operands::answers::answer::Flaw;
use go_syntax::tree::{Decl, DeclForm};
use go_walk::walk::Walk;

/// A declaration in a function. No function is declared there.
#[tactic(auto, using(crate::proofs::DeclLemmas::var_does))]
pub fn decl(
    walk: &mut Walk,
    flaws: &mut Vec<Flaw>,
    out: &mut Vec<CoreStmt>,
    d: &Decl,
) -> Result<(), NoMemory>
    requires depth { 0 < depth walk.old }
    requires plain { IsPlain (scopes_of walk.old.env) }
    ensures does { OnOk result (Does (decl (decl_view d.now)) walk.old walk.new flaws.old.items flaws.new.items out.old.items out.new.items) }
{
    match &*d.form {
        DeclForm::Const(specs) => {
            const_specs(walk, flaws, d.place, specs.as_slice())?;
            Ok(())
        }
        DeclForm::TypeDecl(specs) => {
            type_specs(walk, flaws, specs.as_slice())?;
            Ok(())
        }
        DeclForm::Var(specs) => {
            var_specs(walk, flaws, out, d.place, specs.as_slice())?;
            Ok(())
        }
        DeclForm::Func(_, _, _, _) => {
            refused(walk, flaws, d.place, 0)?;
            Ok(())
        }
    }
}
