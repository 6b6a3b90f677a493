//! What is told of the labels of a body.
//!
//! Go, "Labeled statements": "It is illegal to define a label that is never used."

ghost use Rattle.std.specs.Prelude.{◌≡◌, ℕ, List, [], ◌++◌, OnOk, IfOk, map, if◌then◌else◌};
ghost use Rattle.go_syntax.specs.View.{block_view};
ghost use Rattle.go_operands.specs.AnswerView.{flaw_view};
ghost use Rattle.go_walk.specs.SetsHas.{has_name};
ghost use Rattle.go_typing.specs.Labels.{is_among, label_flaw, label_flaws, labels_told};
ghost use Rattle.go_walk.specs.Seen.{names_of, texts};

use crate::labels::flaw::named_flaw;
use crate::labels::found::{Found, in_stmts};
use crate::sets::NameSet;
use gj_base::{NoMemory, Text};
use go_operands::answers::answer::Flaw;
use go_syntax::tree::{Block, Name};
use std::alloc::Global;

fn set_of<'a>(alloc: Global, xs: &[&'a Text]) -> Result<NameSet<'a>, NoMemory>
    ensures value { IfOk result (λ s. (y : List ℕ) → has_name y s ≡ is_among y (texts xs.now)) }
{
    let mut set = NameSet::new(alloc);
    for x in xs {
        set.insert(*x)?;
    }
    Ok(set)
}

// A label that stands before, or that no branch names.
fn told_one(flaws: &mut Vec<Flaw>, n: &Name, stood: bool, is_used: bool) -> Result<(), NoMemory>
    ensures value { OnOk result (map flaw_view flaws.new.items ≡ map flaw_view flaws.old.items ++ (if stood then label_flaw n.now 82 else if is_used then [] else label_flaw n.now 90)) }
{
    if stood {
        return named_flaw(flaws, n, 82);
    }
    if is_used {
        return Ok(());
    }
    named_flaw(flaws, n, 90)
}

fn told_each<'a>(
    alloc: Global,
    flaws: &mut Vec<Flaw>,
    labels: &[&'a Name],
    branches: &[&'a Text],
) -> Result<(), NoMemory>
    ensures value { OnOk result (map flaw_view flaws.new.items ≡ map flaw_view flaws.old.items ++ label_flaws [] (names_of labels.now) (texts branches.now)) }
{
    let used = set_of(alloc, branches)?;
    let mut seen = NameSet::new(alloc);
    for label in labels {
        let n = *label;
        let stood = seen.has(&n.text);
        let is_used = used.has(&n.text);
        told_one(flaws, n, stood, is_used)?;
        seen.insert(&n.text)?;
    }
    Ok(())
}

/// Adds what is told of the labels of a body: one that stands twice (82), and one that no branch names
/// (90).
pub fn labels_told(alloc: Global, flaws: &mut Vec<Flaw>, body: &Block) -> Result<(), NoMemory>
    ensures value { OnOk result (map flaw_view flaws.new.items ≡ map flaw_view flaws.old.items ++ labels_told (block_view body.now)) }
{
    let mut found = Found::new(alloc);
    in_stmts(&mut found, body.stmts.as_slice())?;
    told_each(
        alloc,
        flaws,
        found.labels.as_slice(),
        found.branches.as_slice(),
    )
}
