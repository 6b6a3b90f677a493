//! Statements, each with all that is told of it and its core.
//!
//! Go, "Statements". The walk goes as deep as the nesting of the source, which the parser bounds.

ghost use Rattle.std.specs.Prelude.{◌≡◌, ◌<◌, ◌&&◌, not, [], false, true, Some, None, OnOk, IfOk, IfSome, List, map, option_map, is_some};
ghost use Rattle.go_const.specs.declared.constant.Const as constant;
ghost use Rattle.go_type.specs.Levels.{tree_of};
ghost use Rattle.go_type.specs.Tree.{Ty};
ghost use Rattle.go_type.specs.Table.{size};
ghost use Rattle.go_syntax.specs.View.{expr_view, exprs_of, maybe_expr, maybe_stmt, stmt_view, stmts_of, block_view, clause_view, joined};
ghost use Rattle.go_syntax.specs.Tree as t;
ghost use Rattle.go_syntax.specs.declared.tree.Clause.{out-Clause};
ghost use Rattle.go_operands.specs.EnvView.{table_of};
ghost use Rattle.go_calls.specs.Words.{types_of};
ghost use Rattle.go_walk.specs.Left.{targets_of};
ghost use Rattle.go_typing.specs.Walk.{within, uses_all};
ghost use Rattle.go_typing.specs.Statements as go;
ghost use Rattle.go_typing.specs.Statements.{if_did, for_did, post_did, switch_did, with_target, case_tests};
ghost use Rattle.go_walk.specs.WalkView.{walk_of};
ghost use Rattle.go_assign.specs.Outcome.{Does};
ghost use Rattle.go_define.specs.AroundView.{around_of};
ghost use Rattle.go_define.specs.CaseView.{HasAll};
ghost use Rattle.go_body.specs.Bodies.{Ready};
ghost use Rattle.go_body.specs.Made.{IsNothing};
ghost use Rattle.go_body.specs.Clauses.{ClauseDoes, ClausesDo};

use crate::body::plain::plain;
use crate::leaf::leaf::{
    decided, goes_on, gone_condition, is_define, is_taken_off, label_of, maybe_decided, none_left,
    told_define, told_many,
};
use crate::leaf::made::{
    Made, after, and_choice, and_loop, and_made, and_switch, enter, gone_made, made_nothing,
};
use crate::leaf::stand::stand;
use crate::leaf::tagged::{Tagged, begin_tag, is_default, tested};
use gj_base::{NoMemory, Text};
use go_core::statement::{CoreStmt, Label};
use go_define::simple::Around;
use go_operands::answers::answer::Flaw;
use go_operands::nodes::gone::gone_expr;
use go_syntax::tree::{Block, Clause, Expr, Stmt, StmtForm};
use go_walk::labels::Targets;
use go_walk::stmt_gone::gone::gone_stmts;
use go_walk::walk::Walk;
use go_walk::walk::parts::so_far;
use go_walk::walk::scopes::{pop, push};

/// A statement; `label` stands before it.
#[cycle(stmts)]
pub fn stmt(
    walk: &mut Walk,
    flaws: &mut Vec<Flaw>,
    out: &mut Vec<CoreStmt>,
    around: &Around,
    targets: &mut Targets,
    label: Option<&Text>,
    s: &Stmt,
) -> Result<(), NoMemory>
    requires ready { Ready around.now walk.old }
    ensures does { OnOk result (Does (go.stmt (stmt_view s.now) (around_of (types_of walk.old.env) around.now (targets_of targets.old) (option_map (λ x. x.now) label.entry))) walk.old walk.new flaws.old.items flaws.new.items out.old.items out.new.items) }
    ensures targets { OnOk result (targets_of targets.new ≡ targets_of targets.old) }
{
    match &*s.form {
        StmtForm::Block(b) => {
            let done = out.len();
            block(walk, flaws, out, around, targets, b)?;
            stand(out, done)?;
            Ok(())
        }
        StmtForm::If(init, x, b, other) => {
            push(walk)?;
            if_stmt(walk, flaws, out, around, targets, init, x, b, other)?;
            pop(walk);
            Ok(())
        }
        StmtForm::For(init, x, turn, b) => {
            push(walk)?;
            for_stmt(walk, flaws, out, around, targets, label, init, x, turn, b)?;
            pop(walk);
            Ok(())
        }
        StmtForm::Switch(init, x, cs) => {
            let before = so_far(walk, flaws);
            push(walk)?;
            switch_stmt(
                walk,
                flaws,
                out,
                around,
                targets,
                label,
                init,
                x,
                cs.as_slice(),
            )?;
            pop(walk);
            told_many(walk, flaws, before, around.wrong_labels, s, cs.len())?;
            Ok(())
        }
        StmtForm::Labeled(n, s) => {
            stmt(walk, flaws, out, around, targets, label_of(n), s)?;
            Ok(())
        }
        _ => {
            plain(walk, flaws, out, around, targets, s)?;
            Ok(())
        }
    }
}

/// A statement that there may be.
#[cycle(stmts)]
fn maybe(
    walk: &mut Walk,
    flaws: &mut Vec<Flaw>,
    out: &mut Vec<CoreStmt>,
    around: &Around,
    targets: &mut Targets,
    s: &Option<Stmt>,
) -> Result<(), NoMemory>
    requires ready { Ready around.now walk.old }
    ensures does { OnOk result (Does (go.maybe (maybe_stmt (option_map stmt_view s.now)) (around_of (types_of walk.old.env) around.now (targets_of targets.old) None)) walk.old walk.new flaws.old.items flaws.new.items out.old.items out.new.items) }
    ensures targets { OnOk result (targets_of targets.new ≡ targets_of targets.old) }
{
    match s {
        Some(s) => {
            stmt(walk, flaws, out, around, targets, None, s)?;
            Ok(())
        }
        None => Ok(()),
    }
}

/// Statements in the scope that is open; where control goes `onward` from their end, the last of them
/// is a `fallthrough` that is taken off.
#[cycle(stmts)]
pub fn stmts(
    walk: &mut Walk,
    flaws: &mut Vec<Flaw>,
    out: &mut Vec<CoreStmt>,
    around: &Around,
    targets: &mut Targets,
    onward: bool,
    ss: &[Stmt],
) -> Result<(), NoMemory>
    requires ready { Ready around.now walk.old }
    requires falls { onward ≡ true → go.falls (stmts_of (map stmt_view ss.now)) ≡ true }
    ensures does { OnOk result (Does (go.clause_stmts onward (stmts_of (map stmt_view ss.now)) (around_of (types_of walk.old.env) around.now (targets_of targets.old) None)) walk.old walk.new flaws.old.items flaws.new.items out.old.items out.new.items) }
    ensures targets { OnOk result (targets_of targets.new ≡ targets_of targets.old) }
{
    let mut left = ss.len();
    for s in ss {
        left -= 1;
        if is_taken_off(onward, left) {
            return Ok(());
        }
        stmt(walk, flaws, out, around, targets, None, s)?;
    }
    Ok(())
}

/// The same in a scope of their own.
#[cycle(stmts)]
fn scoped(
    walk: &mut Walk,
    flaws: &mut Vec<Flaw>,
    out: &mut Vec<CoreStmt>,
    around: &Around,
    targets: &mut Targets,
    onward: bool,
    ss: &[Stmt],
) -> Result<(), NoMemory>
    requires ready { Ready around.now walk.old }
    requires falls { onward ≡ true → go.falls (stmts_of (map stmt_view ss.now)) ≡ true }
    ensures does { OnOk result (Does (within (go.clause_stmts onward (stmts_of (map stmt_view ss.now)) (around_of (types_of walk.old.env) around.now (targets_of targets.old) None))) walk.old walk.new flaws.old.items flaws.new.items out.old.items out.new.items) }
    ensures targets { OnOk result (targets_of targets.new ≡ targets_of targets.old) }
{
    push(walk)?;
    stmts(walk, flaws, out, around, targets, onward, ss)?;
    pop(walk);
    Ok(())
}

/// A block, with a scope of its own.
#[cycle(stmts)]
fn block(
    walk: &mut Walk,
    flaws: &mut Vec<Flaw>,
    out: &mut Vec<CoreStmt>,
    around: &Around,
    targets: &mut Targets,
    b: &Block,
) -> Result<(), NoMemory>
    requires ready { Ready around.now walk.old }
    ensures does { OnOk result (Does (go.block (block_view b.now) (around_of (types_of walk.old.env) around.now (targets_of targets.old) None)) walk.old walk.new flaws.old.items flaws.new.items out.old.items out.new.items) }
    ensures targets { OnOk result (targets_of targets.new ≡ targets_of targets.old) }
{
    scoped(walk, flaws, out, around, targets, false, b.stmts.as_slice())?;
    Ok(())
}

// ---- `if`

#[cycle(stmts)]
fn if_stmt(
    walk: &mut Walk,
    flaws: &mut Vec<Flaw>,
    out: &mut Vec<CoreStmt>,
    around: &Around,
    targets: &mut Targets,
    init: &Option<Stmt>,
    x: &Expr,
    b: &Block,
    other: &Option<Stmt>,
) -> Result<(), NoMemory>
    requires ready { Ready around.now walk.old }
    ensures does { OnOk result (Does (if_did (expr_view x.now) (go.maybe (maybe_stmt (option_map stmt_view init.now)) (around_of (types_of walk.old.env) around.now (targets_of targets.old) None)) (go.block (block_view b.now) (around_of (types_of walk.old.env) around.now (targets_of targets.old) None)) (go.maybe (maybe_stmt (option_map stmt_view other.now)) (around_of (types_of walk.old.env) around.now (targets_of targets.old) None))) walk.old walk.new flaws.old.items flaws.new.items out.old.items out.new.items) }
    ensures targets { OnOk result (targets_of targets.new ≡ targets_of targets.old) }
{
    maybe(walk, flaws, out, around, targets, init)?;
    let alloc = *out.allocator();
    match decided(walk, flaws, x) {
        Ok(condition) => {
            let mut when_true = Vec::new(alloc);
            match block(walk, flaws, &mut when_true, around, targets, b) {
                Ok(()) => {
                    let mut when_false = Vec::new(alloc);
                    match maybe(walk, flaws, &mut when_false, around, targets, other) {
                        Ok(()) => {
                            and_choice(out, condition, when_true, when_false)?;
                            Ok(())
                        }
                        Err(error) => {
                            gone_expr(condition);
                            gone_stmts(when_true);
                            gone_stmts(when_false);
                            Err(error)
                        }
                    }
                }
                Err(error) => {
                    gone_expr(condition);
                    gone_stmts(when_true);
                    Err(error)
                }
            }
        }
        Err(error) => Err(error),
    }
}

// ---- `for`

// A short declaration is no statement after a turn (83).
#[cycle(stmts)]
fn after_turn(
    walk: &mut Walk,
    flaws: &mut Vec<Flaw>,
    out: &mut Vec<CoreStmt>,
    around: &Around,
    targets: &mut Targets,
    turn: &Option<Stmt>,
) -> Result<(), NoMemory>
    requires ready { Ready around.now walk.old }
    ensures does { OnOk result (Does (post_did (maybe_stmt (option_map stmt_view turn.now)) (go.maybe (maybe_stmt (option_map stmt_view turn.now)) (around_of (types_of walk.old.env) around.now (targets_of targets.old) None))) walk.old walk.new flaws.old.items flaws.new.items out.old.items out.new.items) }
    ensures targets { OnOk result (targets_of targets.new ≡ targets_of targets.old) }
{
    match turn {
        Some(s) => {
            if is_define(s) {
                told_define(walk, flaws, s)?;
                return Ok(());
            }
            stmt(walk, flaws, out, around, targets, None, s)?;
            Ok(())
        }
        None => Ok(()),
    }
}

// What is done in a turn of this number.
#[cycle(stmts)]
fn turned(
    walk: &mut Walk,
    flaws: &mut Vec<Flaw>,
    out: &mut Vec<CoreStmt>,
    around: &Around,
    targets: &mut Targets,
    number: Label,
    label: Option<&Text>,
    b: &Block,
) -> Result<(), NoMemory>
    requires ready { Ready around.now walk.old }
    ensures does { OnOk result (Does (λ w. go.block (block_view b.now) (with_target number.0 true (around_of (types_of walk.old.env) around.now (targets_of targets.old) (option_map (λ x. x.now) label.entry))) (go.next_label w)) walk.old walk.new flaws.old.items flaws.new.items out.old.items out.new.items) }
    ensures targets { OnOk result (targets_of targets.new ≡ targets_of targets.old) }
{
    enter(walk, targets, number, label, true)?;
    block(walk, flaws, out, around, targets, b)?;
    targets.pop();
    Ok(())
}

#[cycle(stmts)]
fn for_stmt(
    walk: &mut Walk,
    flaws: &mut Vec<Flaw>,
    out: &mut Vec<CoreStmt>,
    around: &Around,
    targets: &mut Targets,
    label: Option<&Text>,
    init: &Option<Stmt>,
    x: &Option<Expr>,
    turn: &Option<Stmt>,
    b: &Block,
) -> Result<(), NoMemory>
    requires ready { Ready around.now walk.old }
    ensures does { OnOk result (Does (for_did (maybe_expr (option_map expr_view x.now)) (go.maybe (maybe_stmt (option_map stmt_view init.now)) (around_of (types_of walk.old.env) around.now (targets_of targets.old) None)) (post_did (maybe_stmt (option_map stmt_view turn.now)) (go.maybe (maybe_stmt (option_map stmt_view turn.now)) (around_of (types_of walk.old.env) around.now (targets_of targets.old) None))) (λ number. go.block (block_view b.now) (with_target number true (around_of (types_of walk.old.env) around.now (targets_of targets.old) (option_map (λ x. x.now) label.entry))))) walk.old walk.new flaws.old.items flaws.new.items out.old.items out.new.items) }
    ensures targets { OnOk result (targets_of targets.new ≡ targets_of targets.old) }
{
    let number = Label(walk.next_label);
    maybe(walk, flaws, out, around, targets, init)?;
    let alloc = *out.allocator();
    match maybe_decided(walk, flaws, x) {
        Ok(condition) => {
            let mut after = Vec::new(alloc);
            match after_turn(walk, flaws, &mut after, around, targets, turn) {
                Ok(()) => {
                    let mut inside = Vec::new(alloc);
                    match turned(walk, flaws, &mut inside, around, targets, number, label, b) {
                        Ok(()) => {
                            and_loop(out, number, condition, inside, after)?;
                            Ok(())
                        }
                        Err(error) => {
                            gone_condition(condition);
                            gone_stmts(after);
                            gone_stmts(inside);
                            Err(error)
                        }
                    }
                }
                Err(error) => {
                    gone_condition(condition);
                    gone_stmts(after);
                    Err(error)
                }
            }
        }
        Err(error) => Err(error),
    }
}

// ---- `switch`

// A clause of this number: its tests, and its statements, from which control goes on to the next one
// where it falls through.
#[cycle(stmts)]
fn clause(
    walk: &mut Walk,
    flaws: &mut Vec<Flaw>,
    made: &mut Made,
    around: &Around,
    targets: &mut Targets,
    tag: Tagged,
    number: u32,
    is_last: bool,
    c: &Clause,
) -> Result<(), NoMemory>
    requires ready { Ready around.now walk.old }
    requires ty { IfSome tag.ty (λ t. t.0 < size (table_of walk.old.env)) }
    ensures does { OnOk result ((ks : List constant.Const) → HasAll made.old.seen ks → ClauseDoes (out-Clause c.now).place (λ w. case_tests w tag.id.0 (option_map (tree_of (types_of walk.old.env)) tag.ty) number (exprs_of (map expr_view (out-Clause c.now).exprs.items)) ks) (λ w. within (go.clause_stmts (go.falls (stmts_of (map stmt_view (out-Clause c.now).body.items)) && not is_last) (stmts_of (map stmt_view (out-Clause c.now).body.items)) (around_of (types_of walk.old.env) around.now (targets_of targets.old) None)) (uses_all (exprs_of (map expr_view (out-Clause c.now).exprs.items)) w)) number (go.is_default (exprs_of (map expr_view (out-Clause c.now).exprs.items))) (is_some made.old.default) (go.falls (stmts_of (map stmt_view (out-Clause c.now).body.items)) && not is_last) walk.old walk.new flaws.old.items flaws.new.items made.old.tests.items made.new.tests.items made.old.clauses.items made.new.clauses.items made.old.default made.new.default) }
    ensures seen { OnOk result ((us : List Ty) → (ks : List constant.Const) → HasAll made.old.seen ks → HasAll made.new.seen (case_tests (walk_of us walk.old) tag.id.0 (option_map (tree_of (types_of walk.old.env)) tag.ty) number (exprs_of (map expr_view (out-Clause c.now).exprs.items)) ks).seen) }
    ensures targets { OnOk result (targets_of targets.new ≡ targets_of targets.old) }
{
    let had = made.default.is_some();
    tested(
        walk,
        flaws,
        &mut made.tests,
        &mut made.seen,
        had,
        tag,
        number,
        c,
    )?;
    let onward = goes_on(c.body.as_slice(), is_last);
    let mut inside = Vec::new(*flaws.allocator());
    match scoped(
        walk,
        flaws,
        &mut inside,
        around,
        targets,
        onward,
        c.body.as_slice(),
    ) {
        Ok(()) => {
            and_made(made, is_default(c), number, onward, inside)?;
            Ok(())
        }
        Err(error) => {
            gone_stmts(inside);
            Err(error)
        }
    }
}

#[cycle(stmts)]
fn clauses(
    walk: &mut Walk,
    flaws: &mut Vec<Flaw>,
    made: &mut Made,
    around: &Around,
    targets: &mut Targets,
    tag: Tagged,
    cs: &[Clause],
) -> Result<(), NoMemory>
    requires ready { Ready around.now walk.old }
    requires ty { IfSome tag.ty (λ t. t.0 < size (table_of walk.old.env)) }
    requires none { IsNothing made.old }
    ensures does { OnOk result (ClausesDo (go.clauses (joined (map clause_view cs.now) t.NoClauses) (around_of (types_of walk.old.env) around.now (targets_of targets.old) None) tag.id.0 (option_map (tree_of (types_of walk.old.env)) tag.ty) 0 [] false) walk.old walk.new flaws.old.items flaws.new.items made.new) }
    ensures targets { OnOk result (targets_of targets.new ≡ targets_of targets.old) }
{
    let mut left = cs.len();
    let mut number = 0;
    for c in cs {
        left -= 1;
        clause(
            walk,
            flaws,
            made,
            around,
            targets,
            tag,
            number,
            none_left(left),
            c,
        )?;
        number = after(number)?;
    }
    Ok(())
}

#[cycle(stmts)]
fn switch_stmt(
    walk: &mut Walk,
    flaws: &mut Vec<Flaw>,
    out: &mut Vec<CoreStmt>,
    around: &Around,
    targets: &mut Targets,
    label: Option<&Text>,
    init: &Option<Stmt>,
    x: &Option<Expr>,
    cs: &[Clause],
) -> Result<(), NoMemory>
    requires ready { Ready around.now walk.old }
    ensures does { OnOk result (Does (switch_did (maybe_expr (option_map expr_view x.now)) (go.maybe (maybe_stmt (option_map stmt_view init.now)) (around_of (types_of walk.old.env) around.now (targets_of targets.old) None)) (λ tag u number. go.clauses (joined (map clause_view cs.now) t.NoClauses) (with_target number false (around_of (types_of walk.old.env) around.now (targets_of targets.old) (option_map (λ x. x.now) label.entry))) tag u 0 [] false)) walk.old walk.new flaws.old.items flaws.new.items out.old.items out.new.items) }
    ensures targets { OnOk result (targets_of targets.new ≡ targets_of targets.old) }
{
    maybe(walk, flaws, out, around, targets, init)?;
    let tag = begin_tag(walk, flaws, out, x)?;
    let number = Label(walk.next_label);
    enter(walk, targets, number, label, false)?;
    let mut made = made_nothing(*out.allocator());
    match clauses(walk, flaws, &mut made, around, targets, tag, cs) {
        Ok(()) => {
            targets.pop();
            and_switch(out, number, made)?;
            Ok(())
        }
        Err(error) => {
            gone_made(made);
            Err(error)
        }
    }
}
