//! The parts of statements with statements in them, put together.

ghost use Rattle.std.specs.Prelude.{◌≡◌, ◌+◌, ◌∷◌, ◌++◌, [], OnOk, IfOk, List, map, option_map};
ghost use Rattle.go_type.specs.Tree.{Ty};
ghost use Rattle.go_core.specs.CoreTree as core;
ghost use Rattle.go_core.specs.CoreView.{expr_view, bound_of, stmt_view, stmts_of, tests_of, clauses_of};
ghost use Rattle.go_walk.specs.Left.{targets_of};
ghost use Rattle.go_typing.specs.Statements.{next_label};
ghost use Rattle.go_walk.specs.ClauseView.{clause_view};
ghost use Rattle.go_assign.specs.Passed.{Passes};
ghost use Rattle.go_body.specs.Made.{clauses_before, first_default, IsNothing};

use gj_base::{NoMemory, Text};
use go_core::node::CoreExpr;
use go_core::statement::{CoreClause, CoreStmt, CoreTest, Label};
use go_walk::cases::ConstSet;
use go_walk::labels::Targets;
use go_walk::labels::target::Target;
use go_walk::stmt_gone::gone::{gone_clauses, gone_stmts, gone_tests};
use go_walk::stmt_gone::more::and_stmt;
use go_walk::stmt_nodes::branch::{body, choose, clause, clauses, switch_on, turn};
use go_walk::walk::Walk;
use std::alloc::Global;

/// What comes of the clauses of a `switch` so far: tests, clauses, the number of the default one, and
/// the constants of the cases.
pub struct Made {
    pub tests: Vec<CoreTest>,
    pub clauses: Vec<CoreClause>,
    pub default: Option<u32>,
    pub seen: ConstSet,
}

/// Nothing; takes no memory.
pub fn made_nothing(alloc: Global) -> Made
    ensures nothing { IsNothing result }
{
    Made {
        tests: Vec::new(alloc),
        clauses: Vec::new(alloc),
        default: None,
        seen: ConstSet::new(alloc),
    }
}

/// Lets it go.
pub fn gone_made(made: Made) {
    let Made {
        tests,
        clauses,
        default: _default,
        seen: _seen,
    } = made;
    gone_tests(tests);
    gone_clauses(clauses);
}

// One more that may be left, inside the others.
fn push_target(
    targets: &mut Targets,
    label: Label,
    name: Option<&Text>,
    is_loop: bool,
) -> Result<(), NoMemory>
    ensures value { OnOk result (targets_of targets.new ≡ record { label = label.0; name = option_map (λ x. x.now) name.entry; is_loop = is_loop } ∷ targets_of targets.old) }
{
    match name {
        Some(name) => {
            let text = name.clone()?;
            targets.push(Target {
                label,
                name: Some(text),
                is_loop,
            })?;
            Ok(())
        }
        None => {
            targets.push(Target {
                label,
                name: None,
                is_loop,
            })?;
            Ok(())
        }
    }
}

/// A loop or a switch with this number is gone into, which takes the next label.
#[tactic(auto, using(crate::proofs::LeafLemmas::passes_env))]
pub fn enter(
    walk: &mut Walk,
    targets: &mut Targets,
    label: Label,
    name: Option<&Text>,
    is_loop: bool,
) -> Result<(), NoMemory>
    ensures passes { OnOk result (Passes next_label walk.old walk.new) }
    ensures targets { OnOk result (targets_of targets.new ≡ record { label = label.0; name = option_map (λ x. x.now) name.entry; is_loop = is_loop } ∷ targets_of targets.old) }
{
    walk.label()?;
    push_target(targets, label, name, is_loop)?;
    Ok(())
}

/// `if`, at the end of what was done.
pub fn and_choice(
    out: &mut Vec<CoreStmt>,
    condition: CoreExpr,
    when_true: Vec<CoreStmt>,
    when_false: Vec<CoreStmt>,
) -> Result<(), NoMemory>
    ensures core { OnOk result ((ts : List Ty) → map (stmt_view ts) out.new.items ≡ map (stmt_view ts) out.old.items ++ core.if_ (expr_view ts condition) (stmts_of (map (stmt_view ts) when_true.items)) (stmts_of (map (stmt_view ts) when_false.items)) ∷ []) }
{
    match choose(
        *out.allocator(),
        condition,
        body(when_true),
        body(when_false),
    ) {
        Ok(whole) => {
            and_stmt(out, whole)?;
            Ok(())
        }
        Err(error) => Err(error),
    }
}

/// `for`, at the end of what was done.
pub fn and_loop(
    out: &mut Vec<CoreStmt>,
    label: Label,
    condition: Option<CoreExpr>,
    inside: Vec<CoreStmt>,
    after: Vec<CoreStmt>,
) -> Result<(), NoMemory>
    ensures core { OnOk result ((ts : List Ty) → map (stmt_view ts) out.new.items ≡ map (stmt_view ts) out.old.items ++ core.loop label.0 (bound_of (option_map (expr_view ts) condition)) (stmts_of (map (stmt_view ts) inside.items)) (stmts_of (map (stmt_view ts) after.items)) ∷ []) }
{
    match turn(
        *out.allocator(),
        label,
        condition,
        body(inside),
        body(after),
    ) {
        Ok(whole) => {
            and_stmt(out, whole)?;
            Ok(())
        }
        Err(error) => Err(error),
    }
}

/// `switch`, at the end of what was done.
pub fn and_switch(out: &mut Vec<CoreStmt>, label: Label, made: Made) -> Result<(), NoMemory>
    ensures core { OnOk result ((ts : List Ty) → map (stmt_view ts) out.new.items ≡ map (stmt_view ts) out.old.items ++ core.switch_on label.0 (tests_of ts made.tests.items) (clauses_of (map (clause_view ts) made.clauses.items)) made.default ∷ []) }
{
    let Made {
        tests,
        clauses: items,
        default,
        seen: _seen,
    } = made;
    match switch_on(*out.allocator(), label, tests, clauses(items), default) {
        Ok(whole) => {
            and_stmt(out, whole)?;
            Ok(())
        }
        Err(error) => Err(error),
    }
}

fn no_clause(core: CoreClause) -> NoMemory {
    let CoreClause {
        body,
        falls_through: _falls_through,
    } = core;
    gone_stmts(body.items);
    NoMemory
}

// One clause more.
fn push_clause(items: &mut Vec<CoreClause>, core: CoreClause) -> Result<(), NoMemory>
    ensures items { OnOk result (items.new.items ≡ items.old.items ++ core ∷ []) }
{
    match items.push(core) {
        Ok(()) => Ok(()),
        Err(refused) => Err(no_clause(refused.value)),
    }
}

// The number of the first `default`.
fn default_after(default: Option<u32>, is_default: bool, number: u32) -> Option<u32>
    ensures value { result ≡ first_default default is_default number }
{
    match default {
        Some(first) => Some(first),
        None => {
            if is_default {
                return Some(number);
            }
            None
        }
    }
}

/// One clause more, of this number; the first one that is a `default` is the default one.
pub fn and_made(
    made: &mut Made,
    is_default: bool,
    number: u32,
    onward: bool,
    inside: Vec<CoreStmt>,
) -> Result<(), NoMemory>
    ensures tests { made.new.tests ≡ made.old.tests }
    ensures seen { made.new.seen ≡ made.old.seen }
    ensures default { OnOk result (made.new.default ≡ first_default made.old.default is_default number) }
    ensures clauses { OnOk result ((ts : List Ty) → (rest : core.Clauses) → clauses_before ts made.new.clauses.items rest ≡ clauses_before ts made.old.clauses.items (core.clause (stmts_of (map (stmt_view ts) inside.items)) onward rest)) }
{
    push_clause(&mut made.clauses, clause(body(inside), onward))?;
    made.default = default_after(made.default, is_default, number);
    Ok(())
}

/// The number of the next clause.
pub fn after(number: u32) -> Result<u32, NoMemory>
    ensures value { IfOk result (λ n. n ≡ number + 1) }
{
    match number.checked_add(1) {
        Some(next) => Ok(next),
        None => Err(NoMemory),
    }
}
