//! The cases of a clause of a `switch`: each is compared with the tag.
//!
//! Go, "Expression switches".

ghost use Rattle.std.specs.Prelude.{◌≡◌, ◌<◌, ◌++◌, ◌∷◌, [], None, Some, OnOk, IfOk, IfSome, List, map, option_map};
ghost use Rattle.gj_base.specs.declared.kind.Op.TheVariants as operator;
ghost use Rattle.go_const.specs.declared.constant.Const as constant;
ghost use Rattle.go_type.specs.Tree.{Ty};
ghost use Rattle.go_type.specs.Levels.{tree_of};
ghost use Rattle.go_type.specs.Table.{size};
ghost use Rattle.go_core.specs.CoreTree as core;
ghost use Rattle.go_core.specs.CoreView.{expr_view as core_view};
ghost use Rattle.go_syntax.specs.View.{expr_view, exprs_of};
ghost use Rattle.go_syntax.specs.Tree as t;
ghost use Rattle.go_typing.specs.Answer.{own, value, untyped_part};
ghost use Rattle.go_typing.specs.Typing.{operator_row};
ghost use Rattle.go_operands.specs.EnvView.{table_of};
ghost use Rattle.go_operands.specs.AnswerView.{answer_view, flaw_view};
ghost use Rattle.go_operands.specs.Below.{AnswerBelow};
ghost use Rattle.go_operands.specs.Parts.{part_view, PartBelow};
ghost use Rattle.go_calls.specs.Words.{types_of, names_of};
ghost use Rattle.go_typing.specs.Expressions.{core_of, constant_of};
ghost use Rattle.go_assign.specs.Settled.{valued_view};
ghost use Rattle.go_typing.specs.Statements as go;
ghost use Rattle.go_typing.specs.Statements.{repeated, repeated_flaws, and_constant};
ghost use Rattle.go_walk.specs.WalkView.{walk_of, Keeps};
ghost use Rattle.go_expr.specs.Raw.{raw_view, RawBelow};
ghost use Rattle.go_assign.specs.Passed.{Passes, stays};
ghost use Rattle.go_define.specs.CaseView.{part_row, case_row, tests_before, HasAll, Cases};

use gj_base::{NoMemory, Op, Place};
use go_assign::branch::used::raw_typed;
use go_assign::valued::taken::{constant_of, core_of};
use go_assign::valued::told::move_flaws;
use go_assign::valued::valued::{Valued, value_at};
use go_binary::rows::binary::operator;
use go_const::Const;
use go_core::node::{CoreExpr, VarId};
use go_core::statement::CoreTest;
use go_expr::parts::stack::add_own;
use go_expr::typed::Raw;
use go_operands::answers::answer::{Answer, Flaw};
use go_operands::answers::gone::gone_answer;
use go_operands::answers::rule::{and_flaw, made};
use go_operands::nodes::gone::gone_expr;
use go_operands::nodes::leaf;
use go_operands::operands::boxes::answer_box;
use go_operands::operands::part::{Part, gone_part};
use go_operands::scopes::Env;
use go_syntax::tree::Expr;
use go_type::types::TypeId;
use go_walk::cases::ConstSet;
use go_walk::stmt_nodes::branch::test;
use go_walk::walk::Walk;
use std::alloc::Global;

// ---- the comparison with the tag

// The tag, which a variable has.
fn read_tag(alloc: Global, env: &Env, tag: VarId, ty: TypeId) -> Result<Answer, NoMemory>
    requires ty { ty.0 < size (table_of env.now) }
    ensures view { IfOk result (λ a. answer_view (types_of env.now) a ≡ value (core.read (tree_of (types_of env.now) ty) (core.local_ tag.0)) (tree_of (types_of env.now) ty) None) }
    ensures within { IfOk result (λ a. AnswerBelow (size (table_of env.now)) a) }
{
    let _ = env;
    match leaf::read_local(alloc, ty, tag) {
        Ok(core) => Ok(made(core, ty)),
        Err(error) => Err(error),
    }
}

fn equal(alloc: Global, env: &Env, tag: Answer, part: Part) -> Result<Answer, NoMemory>
    requires tag { AnswerBelow (size (table_of env.now)) tag }
    requires part { PartBelow (size (table_of env.now)) part }
    ensures view { IfOk result (λ a. answer_view (types_of env.now) a ≡ operator_row (names_of env.now) part.place operator.Eq (record { place = part.place; answer = answer_view (types_of env.now) tag }) (part_view (types_of env.now) part)) }
{
    let Part { place, answer } = part;
    match answer_box(alloc, env.table(), tag) {
        Ok(tag) => operator(alloc, env.table(), place, Op::Eq, place, tag, place, answer),
        Err(error) => {
            gone_answer(answer);
            Err(error)
        }
    }
}

fn compared(
    alloc: Global,
    env: &Env,
    tag: VarId,
    ty: TypeId,
    part: Part,
) -> Result<Answer, NoMemory>
    requires ty { ty.0 < size (table_of env.now) }
    requires part { PartBelow (size (table_of env.now)) part }
    ensures view { IfOk result (λ a. answer_view (types_of env.now) a ≡ operator_row (names_of env.now) part.place operator.Eq (record { place = part.place; answer = value (core.read (tree_of (types_of env.now) ty) (core.local_ tag.0)) (tree_of (types_of env.now) ty) None }) (part_view (types_of env.now) part)) }
{
    match read_tag(alloc, env, tag, ty) {
        Ok(tag) => match equal(alloc, env, tag, part) {
            Ok(answer) => Ok(answer),
            Err(error) => Err(error),
        },
        Err(error) => {
            gone_part(part);
            Err(error)
        }
    }
}

#[tactic(auto, using(crate::proofs::CaseLemmas::one_test))]
fn and_test(tests: &mut Vec<CoreTest>, whole: CoreExpr, number: u32) -> Result<(), NoMemory>
    ensures tests { OnOk result ((ts : List Ty) → (rest : core.Tests) → tests_before ts tests.new.items rest ≡ tests_before ts tests.old.items (core.test (core_view ts whole) number rest)) }
{
    match tests.push(test(whole, number)) {
        Ok(()) => Ok(()),
        Err(refused) => {
            let CoreTest {
                condition,
                clause: _clause,
            } = refused.value;
            gone_expr(condition);
            Err(NoMemory)
        }
    }
}

#[tactic(auto, using(crate::proofs::CaseLemmas::core_test))]
fn and_core(
    env: &Env,
    tests: &mut Vec<CoreTest>,
    number: u32,
    answer: Answer,
) -> Result<(), NoMemory>
    ensures tests { OnOk result ((ts : List Ty) → Keeps (table_of env.now) ts → (rest : core.Tests) → tests_before ts tests.new.items rest ≡ tests_before ts tests.old.items (core.test (core_of (answer_view (types_of env.now) answer)) number rest)) }
{
    match core_of(*tests.allocator(), env, answer) {
        Ok(whole) => {
            and_test(tests, whole, number)?;
            Ok(())
        }
        Err(error) => Err(error),
    }
}

// A comparison, with what is told of it.
fn and_case(
    env: &Env,
    flaws: &mut Vec<Flaw>,
    tests: &mut Vec<CoreTest>,
    number: u32,
    answer: Answer,
) -> Result<(), NoMemory>
    ensures told { OnOk result (map flaw_view flaws.new.items ≡ map flaw_view flaws.old.items ++ own (answer_view (types_of env.now) answer)) }
    ensures tests { OnOk result ((ts : List Ty) → Keeps (table_of env.now) ts → (rest : core.Tests) → tests_before ts tests.new.items rest ≡ tests_before ts tests.old.items (core.test (core_of (answer_view (types_of env.now) answer)) number rest)) }
{
    match add_own(*flaws.allocator(), flaws, &answer) {
        Ok(()) => {
            and_core(env, tests, number, answer)?;
            Ok(())
        }
        Err(error) => {
            gone_answer(answer);
            Err(error)
        }
    }
}

#[tactic(auto, using(crate::proofs::CaseLemmas::told_row, crate::proofs::CaseLemmas::test_row))]
fn compare(
    env: &Env,
    flaws: &mut Vec<Flaw>,
    tests: &mut Vec<CoreTest>,
    tag: VarId,
    ty: TypeId,
    number: u32,
    part: Part,
) -> Result<(), NoMemory>
    requires ty { ty.0 < size (table_of env.now) }
    requires part { PartBelow (size (table_of env.now)) part }
    ensures told { OnOk result (map flaw_view flaws.new.items ≡ map flaw_view flaws.old.items ++ own (part_row (names_of env.now) tag.0 (tree_of (types_of env.now) ty) (part_view (types_of env.now) part))) }
    ensures tests { OnOk result ((ts : List Ty) → Keeps (table_of env.now) ts → (rest : core.Tests) → tests_before ts tests.new.items rest ≡ tests_before ts tests.old.items (core.test (core_of (part_row (names_of env.now) tag.0 (tree_of (types_of env.now) ty) (part_view (types_of env.now) part))) number rest)) }
{
    match compared(*flaws.allocator(), env, tag, ty, part) {
        Ok(answer) => {
            and_case(env, flaws, tests, number, answer)?;
            Ok(())
        }
        Err(error) => Err(error),
    }
}

// A case, with what is told of it.
#[tactic(auto, using(crate::proofs::CaseLemmas::told_more))]
fn compare_raw(
    env: &Env,
    flaws: &mut Vec<Flaw>,
    tests: &mut Vec<CoreTest>,
    tag: VarId,
    ty: TypeId,
    number: u32,
    raw: Raw,
) -> Result<(), NoMemory>
    requires ty { ty.0 < size (table_of env.now) }
    requires within { RawBelow (size (table_of env.now)) raw }
    ensures told { OnOk result (map flaw_view flaws.new.items ≡ map flaw_view flaws.old.items ++ ((raw_view (types_of env.now) raw).flaws ++ own (case_row (names_of env.now) tag.0 (tree_of (types_of env.now) ty) (raw_view (types_of env.now) raw)))) }
    ensures tests { OnOk result ((ts : List Ty) → Keeps (table_of env.now) ts → (rest : core.Tests) → tests_before ts tests.new.items rest ≡ tests_before ts tests.old.items (core.test (core_of (case_row (names_of env.now) tag.0 (tree_of (types_of env.now) ty) (raw_view (types_of env.now) raw))) number rest)) }
{
    let Raw { part, flaws: more } = raw;
    match move_flaws(flaws, more) {
        Ok(()) => {
            compare(env, flaws, tests, tag, ty, number, part)?;
            Ok(())
        }
        Err(error) => {
            gone_part(part);
            Err(error)
        }
    }
}

// The same where the tag isn't typed.
fn lost_raw(
    env: &Env,
    flaws: &mut Vec<Flaw>,
    tests: &mut Vec<CoreTest>,
    number: u32,
    raw: Raw,
) -> Result<(), NoMemory>
    ensures told { OnOk result (map flaw_view flaws.new.items ≡ map flaw_view flaws.old.items ++ (raw_view (types_of env.now) raw).flaws) }
    ensures tests { OnOk result ((ts : List Ty) → Keeps (table_of env.now) ts → (rest : core.Tests) → tests_before ts tests.new.items rest ≡ tests_before ts tests.old.items (core.test (core_of untyped_part) number rest)) }
{
    let Raw { part, flaws: more } = raw;
    gone_part(part);
    move_flaws(flaws, more)?;
    and_core(env, tests, number, Answer::Unknown)?;
    Ok(())
}

// ---- constants

fn constant_in(valued: Valued) -> Option<Const>
    ensures value { (ts : List Ty) → result ≡ constant_of (valued_view ts valued).answer }
{
    let Valued {
        answer,
        flaws: _flaws,
    } = valued;
    constant_of(answer)
}

// The constant that a case is as a value of the tag's type. What is told of it is told elsewhere.
#[tactic(auto, using(crate::proofs::CaseLemmas::constant_before, crate::proofs::PassedLemmas::passes_typed))]
fn constant_at(walk: &mut Walk, ty: TypeId, x: &Expr) -> Result<Option<Const>, NoMemory>
    requires ty { ty.0 < size (table_of walk.old.env) }
    ensures value { IfOk result (λ k. (us : List Ty) → k ≡ go.case_constant (walk_of us walk.old) (Some (tree_of (types_of walk.old.env) ty)) (expr_view x.now)) }
    ensures passes { OnOk result (Passes stays walk.old walk.new) }
{
    let alloc = *walk.used.allocator();
    match value_at(alloc, &mut walk.env, ty, x) {
        Ok(valued) => Ok(constant_in(valued)),
        Err(error) => Err(error),
    }
}

// A constant that stands twice is told (92).
#[tactic(auto, using(crate::proofs::CaseLemmas::repeats_told, crate::proofs::CaseLemmas::new_told, crate::proofs::CaseLemmas::has_more))]
fn see_constant(
    flaws: &mut Vec<Flaw>,
    seen: &mut ConstSet,
    at: Place,
    k: Const,
) -> Result<(), NoMemory>
    ensures told { OnOk result ((ks : List constant.Const) → HasAll seen.old ks → map flaw_view flaws.new.items ≡ map flaw_view flaws.old.items ++ repeated_flaws at (repeated (Some k) ks)) }
    ensures seen { OnOk result ((ks : List constant.Const) → HasAll seen.old ks → HasAll seen.new (k ∷ ks)) }
{
    if seen.has(&k) {
        and_flaw(*flaws.allocator(), flaws, at, 92)?;
        seen.insert(k)?;
        return Ok(());
    }
    seen.insert(k)?;
    Ok(())
}

#[tactic(auto, using(crate::proofs::CaseLemmas::none_told))]
fn see(
    flaws: &mut Vec<Flaw>,
    seen: &mut ConstSet,
    at: Place,
    k: Option<Const>,
) -> Result<(), NoMemory>
    ensures told { OnOk result ((ks : List constant.Const) → HasAll seen.old ks → map flaw_view flaws.new.items ≡ map flaw_view flaws.old.items ++ repeated_flaws at (repeated k ks)) }
    ensures seen { OnOk result ((ks : List constant.Const) → HasAll seen.old ks → HasAll seen.new (and_constant k ks)) }
{
    match k {
        Some(k) => {
            see_constant(flaws, seen, at, k)?;
            Ok(())
        }
        None => Ok(()),
    }
}

// ---- a case

#[tactic(auto, using(crate::proofs::CaseLemmas::typed_case, crate::proofs::PassedLemmas::passes_on))]
fn typed_case(
    walk: &mut Walk,
    flaws: &mut Vec<Flaw>,
    tests: &mut Vec<CoreTest>,
    seen: &mut ConstSet,
    tag: VarId,
    ty: TypeId,
    number: u32,
    x: &Expr,
) -> Result<(), NoMemory>
    requires ty { ty.0 < size (table_of walk.old.env) }
    ensures cases { OnOk result ((us : List Ty) → (ks : List constant.Const) → HasAll seen.old ks → Cases (go.case_tests (walk_of us walk.old) tag.0 (Some (tree_of (types_of walk.old.env) ty)) number (t.MoreExprs (expr_view x.now) t.NoExprs) ks) (table_of walk.new.env) flaws.old.items flaws.new.items tests.old.items tests.new.items seen.new) }
    ensures passes { OnOk result (Passes stays walk.old walk.new) }
{
    let k = constant_at(walk, ty, x)?;
    match raw_typed(walk, x) {
        Ok(raw) => {
            let at = raw.part.place;
            compare_raw(&walk.env, flaws, tests, tag, ty, number, raw)?;
            see(flaws, seen, at, k)?;
            Ok(())
        }
        Err(error) => Err(error),
    }
}

#[tactic(auto, using(crate::proofs::CaseLemmas::lost_case))]
fn lost_case(
    walk: &mut Walk,
    flaws: &mut Vec<Flaw>,
    tests: &mut Vec<CoreTest>,
    seen: &ConstSet,
    tag: VarId,
    number: u32,
    x: &Expr,
) -> Result<(), NoMemory>
    ensures cases { OnOk result ((us : List Ty) → (ks : List constant.Const) → HasAll seen.now ks → Cases (go.case_tests (walk_of us walk.old) tag.0 None number (t.MoreExprs (expr_view x.now) t.NoExprs) ks) (table_of walk.new.env) flaws.old.items flaws.new.items tests.old.items tests.new.items seen.now) }
    ensures passes { OnOk result (Passes stays walk.old walk.new) }
{
    let _ = tag;
    let _ = seen;
    match raw_typed(walk, x) {
        Ok(raw) => {
            lost_raw(&walk.env, flaws, tests, number, raw)?;
            Ok(())
        }
        Err(error) => Err(error),
    }
}

fn one_case(
    walk: &mut Walk,
    flaws: &mut Vec<Flaw>,
    tests: &mut Vec<CoreTest>,
    seen: &mut ConstSet,
    tag: VarId,
    ty: Option<TypeId>,
    number: u32,
    x: &Expr,
) -> Result<(), NoMemory>
    requires ty { IfSome ty (λ t. t.0 < size (table_of walk.old.env)) }
    ensures cases { OnOk result ((us : List Ty) → (ks : List constant.Const) → HasAll seen.old ks → Cases (go.case_tests (walk_of us walk.old) tag.0 (option_map (tree_of (types_of walk.old.env)) ty) number (t.MoreExprs (expr_view x.now) t.NoExprs) ks) (table_of walk.new.env) flaws.old.items flaws.new.items tests.old.items tests.new.items seen.new) }
    ensures passes { OnOk result (Passes stays walk.old walk.new) }
{
    match ty {
        Some(ty) => {
            typed_case(walk, flaws, tests, seen, tag, ty, number, x)?;
            Ok(())
        }
        None => {
            lost_case(walk, flaws, tests, seen, tag, number, x)?;
            Ok(())
        }
    }
}

/// The cases of a clause, each compared with the tag, by which the clause of this number is chosen.
///
/// The constants of the cases are typed once more, as values of the tag's type.
#[tactic(auto, using(crate::proofs::CaseLemmas::below_still, crate::proofs::CaseLemmas::case_before, crate::proofs::CaseLemmas::cases_begin, crate::proofs::CaseLemmas::cases_step, crate::proofs::CaseLemmas::cases_end, crate::proofs::PassedLemmas::passes_on, crate::proofs::PassedLemmas::passes_not))]
pub fn case_tests(
    walk: &mut Walk,
    flaws: &mut Vec<Flaw>,
    tests: &mut Vec<CoreTest>,
    seen: &mut ConstSet,
    tag: VarId,
    ty: Option<TypeId>,
    number: u32,
    xs: &[Expr],
) -> Result<(), NoMemory>
    requires ty { IfSome ty (λ t. t.0 < size (table_of walk.old.env)) }
    ensures cases { OnOk result ((us : List Ty) → (ks : List constant.Const) → HasAll seen.old ks → Cases (go.case_tests (walk_of us walk.old) tag.0 (option_map (tree_of (types_of walk.old.env)) ty) number (exprs_of (map expr_view xs.now)) ks) (table_of walk.new.env) flaws.old.items flaws.new.items tests.old.items tests.new.items seen.new) }
    ensures passes { OnOk result (Passes stays walk.old walk.new) }
{
    for x in xs {
        one_case(walk, flaws, tests, seen, tag, ty, number, x)?;
    }
    Ok(())
}
