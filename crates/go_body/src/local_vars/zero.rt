//! Variables without values.
//!
//! Go, "Variable declarations", "The zero value".

ghost use Rattle.std.specs.Prelude.{◌≡◌, ◌<◌, OnOk, IfSome, option_map};
ghost use Rattle.go_type.specs.Levels.{tree_of};
ghost use Rattle.go_type.specs.Table.{size};
ghost use Rattle.go_operands.specs.EnvView.{table_of};
ghost use Rattle.go_calls.specs.Words.{types_of};
ghost use Rattle.go_typing.specs.Declare.{var_zero};
ghost use Rattle.go_walk.specs.WalkView.{depth};
ghost use Rattle.go_assign.specs.Outcome.{Does};
ghost use Rattle.go_assign.specs.SpecView.{spec_view, SpecBelow};
ghost use Rattle.go_body.specs.LocalVarsSpecs.{declared_zero};

use crate::local_vars::spec::zero_of;
use gj_base::NoMemory;
use go_assign::constants::SpecType;
use go_assign::effects::declared;
use go_core::statement::CoreStmt;
use go_operands::answers::answer::Flaw;
use go_syntax::tree::Name;
use go_type::types::TypeId;
use go_walk::stmt_gone::gone::gone_target;
use go_walk::walk::Walk;
use go_walk::walk::again::redeclared;
use go_walk::walk::scopes::there;

#[tactic(auto, using(crate::proofs::NameLemmas::zero_done))]
fn one_zero(
    walk: &mut Walk,
    flaws: &mut Vec<Flaw>,
    out: &mut Vec<CoreStmt>,
    n: &Name,
    ty: Option<TypeId>,
) -> Result<(), NoMemory>
    requires depth { 0 < depth walk.old }
    requires below { IfSome ty (λ t. t.0 < size (table_of walk.old.env)) }
    ensures does { OnOk result (Does (declared_zero n.now (option_map (tree_of (types_of walk.old.env)) ty)) walk.old walk.new flaws.old.items flaws.new.items out.old.items out.new.items) }
    ensures table { OnOk result (table_of walk.new.env ≡ table_of walk.old.env) }
{
    let alloc = *flaws.allocator();
    let at = there(walk, n);
    match redeclared(flaws, n, at) {
        Ok(()) => match declared(alloc, walk, n, at, ty, out) {
            Ok(target) => {
                gone_target(target);
                Ok(())
            }
            Err(error) => Err(error),
        },
        Err(error) => Err(error),
    }
}

/// Each is zero, or its type isn't known.
#[tactic(auto, using(crate::proofs::LeftLemmas::left_begin))]
pub fn zeros(
    walk: &mut Walk,
    flaws: &mut Vec<Flaw>,
    out: &mut Vec<CoreStmt>,
    s: SpecType,
    names: &[Name],
) -> Result<(), NoMemory>
    requires depth { 0 < depth walk.old }
    requires spec { SpecBelow (size (table_of walk.old.env)) s }
    ensures does { OnOk result (Does (var_zero (spec_view (types_of walk.old.env) s) names.now) walk.old walk.new flaws.old.items flaws.new.items out.old.items out.new.items) }
{
    let ty = zero_of(&walk.env, s);
    for n in names {
        one_zero(walk, flaws, out, n, ty)?;
    }
    Ok(())
}
