//! What stands round a node inside a body.
//!
//! Go, "Declarations and scope", "Labeled statements".

ghost use Rattle.std.specs.Prelude.{◌≡◌, Some, true, option_map, Contains, List, map, ◌++◌};
ghost use Rattle.go_type.specs.Tree.{Ty};
ghost use Rattle.go_type.specs.Levels.{tree_of};
ghost use Rattle.go_core.specs.CoreTree as core;
ghost use Rattle.go_core.specs.CoreView.{var_of, branch_of};
ghost use Rattle.go_core.specs.TypeOf.{var_type};
ghost use Rattle.go_core.specs.SoundNode.{with_all, with_break, with_loop};
ghost use Rattle.go_core.specs.Sound.{IsNew, labels_for};
ghost use Rattle.go_sound_nodes.specs.declared.judge.Judge.{Judge};
ghost use Rattle.go_sound_nodes.specs.Around.{around, trees_in, is_among, onto, with_onto, vars_in, breaks_in, continues_in};

use crate::judge::Judge;
use go_core::node::{Var, VarId};
use go_core::statement::{BranchKind, Label};
use go_sound_parts::lists::{first_type, last_type};
use go_type::types::TypeId;

/// What stands round a node, the innermost first.
#[derive(Clone, Copy)]
pub enum Round<'a> {
    /// The variables of the function's head, and those that it captured.
    Head {
        vars: &'a [Var],
        captured: &'a [Var],
    },
    /// In the scope of several variables.
    Among(&'a [Var], &'a Round<'a>),
    /// In a statement that `break` can leave.
    Break(Label, &'a Round<'a>),
    /// In a loop.
    Loop(Label, &'a Round<'a>),
}

fn head_type(vars: &[Var], captured: &[Var], v: VarId) -> Option<TypeId>
    ensures is { (ts : List Ty) → option_map (tree_of ts) result ≡ var_type v.0 (map (var_of ts) vars.now ++ map (var_of ts) captured.now) }
{
    match first_type(vars, v) {
        Some(t) => Some(t),
        None => first_type(captured, v),
    }
}

// The type of a variable where several come into scope: theirs, or the one before.
fn scope_type(vars: &[Var], v: VarId, before: Option<TypeId>) -> Option<TypeId>
    ensures is { (ts : List Ty) (ys : List core.Var) → option_map (tree_of ts) before ≡ var_type v.0 ys → option_map (tree_of ts) result ≡ var_type v.0 (onto (map (var_of ts) vars.now) ys) }
{
    last_type(vars, v, before)
}

/// The type of a variable in scope.
pub fn type_of(round: &Round<'_>, v: VarId) -> Option<TypeId>
    ensures is { (ts : List Ty) → option_map (tree_of ts) result ≡ var_type v.0 (vars_in ts round.now) }
{
    match round {
        Round::Head { vars, captured } => head_type(vars, captured, v),
        Round::Among(vars, rest) => scope_type(vars, v, type_of(rest, v)),
        Round::Break(_, rest) => type_of(rest, v),
        Round::Loop(_, rest) => type_of(rest, v),
    }
}

fn may_break(round: &Round<'_>, label: Label) -> bool
    ensures is { result ≡ is_among label.0 (breaks_in round.now) }
{
    match round {
        Round::Head { .. } => false,
        Round::Among(_, rest) => may_break(rest, label),
        Round::Break(l, rest) => l.0 == label.0 || may_break(rest, label),
        Round::Loop(l, rest) => l.0 == label.0 || may_break(rest, label),
    }
}

fn may_continue(round: &Round<'_>, label: Label) -> bool
    ensures is { result ≡ is_among label.0 (continues_in round.now) }
{
    match round {
        Round::Head { .. } => false,
        Round::Among(_, rest) => may_continue(rest, label),
        Round::Break(_, rest) => may_continue(rest, label),
        Round::Loop(l, rest) => l.0 == label.0 || may_continue(rest, label),
    }
}

/// Whether no statement round the node has the label.
#[tactic(auto, using(crate::proofs::RoundLemmas::not_among))]
fn is_new(round: &Round<'_>, label: Label) -> bool
    ensures is { result ≡ true → (j : Judge) → IsNew label.0 (around j round.now) }
{
    !may_break(round, label)
}

/// Whether a branch has its target.
#[tactic(auto, using(crate::proofs::RoundLemmas::among_there))]
fn has_target(round: &Round<'_>, kind: BranchKind, label: Label) -> bool
    ensures is { result ≡ true → (j : Judge) → Contains (labels_for (branch_of kind) (around j round.now)) label.0 }
{
    match kind {
        BranchKind::Break => may_break(round, label),
        BranchKind::Continue => may_continue(round, label),
    }
}

fn with_vars<'a>(vars: &'a [Var], round: &'a Round<'a>) -> Round<'a>
    ensures is { (j : Judge) → around j result ≡ with_onto (map (var_of (trees_in j)) vars.now) (around j round.now) }
{
    Round::Among(vars, round)
}

/// In the scope of several variables.
fn among<'a>(vars: &'a [Var], round: &'a Round<'a>) -> Round<'a>
    ensures is { (j : Judge) → around j result ≡ with_all (map (var_of (trees_in j)) vars.now) (around j round.now) }
{
    with_vars(vars, round)
}

/// In a statement that `break` can leave.
fn in_break<'a>(label: Label, round: &'a Round<'a>) -> Round<'a>
    ensures is { (j : Judge) → around j result ≡ with_break label.0 (around j round.now) }
{
    Round::Break(label, round)
}

/// In a loop.
fn in_loop<'a>(label: Label, round: &'a Round<'a>) -> Round<'a>
    ensures is { (j : Judge) → around j result ≡ with_loop label.0 (around j round.now) }
{
    Round::Loop(label, round)
}

/// Whether a variable is in scope.
pub fn is_in_scope(round: &Round<'_>, v: VarId) -> bool
    ensures is { result ≡ true → (ts : List Ty) → (t : Ty) × (var_type v.0 (vars_in ts round.now) ≡ Some t) }
{
    match type_of(round, v) {
        Some(_t) => true,
        None => false,
    }
}

impl<'a> Judge<'a> {
    /// Whether no statement round the node has the label.
    pub fn is_new(&self, round: &Round<'_>, label: Label) -> bool
        ensures is { result ≡ true → IsNew label.0 (around self.now round.now) }
    {
        is_new(round, label)
    }

    /// Whether a branch has its target.
    pub fn has_target(&self, round: &Round<'_>, kind: BranchKind, label: Label) -> bool
        ensures is { result ≡ true → Contains (labels_for (branch_of kind) (around self.now round.now)) label.0 }
    {
        has_target(round, kind, label)
    }

    /// In the scope of several variables.
    pub fn among<'r>(&self, vars: &'r [Var], round: &'r Round<'r>) -> Round<'r>
        ensures is { around self.now result ≡ with_all (map (var_of (trees_in self.now)) vars.now) (around self.now round.now) }
    {
        among(vars, round)
    }

    /// In a statement that `break` can leave.
    pub fn in_break<'r>(&self, label: Label, round: &'r Round<'r>) -> Round<'r>
        ensures is { around self.now result ≡ with_break label.0 (around self.now round.now) }
    {
        in_break(label, round)
    }

    /// In a loop.
    pub fn in_loop<'r>(&self, label: Label, round: &'r Round<'r>) -> Round<'r>
        ensures is { around self.now result ≡ with_loop label.0 (around self.now round.now) }
    {
        in_loop(label, round)
    }
}
