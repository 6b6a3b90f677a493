//! Faults, alone and in lists.

ghost use Rattle.std.specs.Prelude.{◌≡◌, ◌<◌, ◌∷◌, ◌++◌, [], IfOk, OnOk, List, None, ℕ, map};
ghost use Rattle.go_type.specs.Tree.{Ty};
ghost use Rattle.go_typing.specs.Answer.{flaw, bad, unless, value, is_known};
ghost use Rattle.go_type.specs.Levels.{tree_of};
ghost use Rattle.go_core.specs.CoreView.{expr_view};
ghost use Rattle.go_operands.specs.AnswerView.{flaw_view, flaws_view, answer_view};
ghost use Rattle.go_operands.specs.Below.{AnswerBelow};

use crate::answers::answer::{Answer, Flaw, Flaws, Found};
use crate::answers::gone::gone_answer;
use gj_base::{NoMemory, Place, Text};
use go_core::node::CoreExpr;
use go_type::types::TypeId;
use std::alloc::Global;

/// One fault more, whose text tells no name; a refusal leaves the faults as they were.
pub fn and_flaw(alloc: Global, flaws: &mut Vec<Flaw>, at: Place, code: u16) -> Result<(), NoMemory>
    ensures value { OnOk result (map flaw_view flaws.new.items ≡ map flaw_view flaws.old.items ++ flaw at code ∷ []) }
{
    flaws.push(Flaw {
        place: at,
        code,
        name: Text::new(alloc),
    })?;
    Ok(())
}

/// One fault alone.
pub fn one_flaw(alloc: Global, at: Place, code: u16) -> Result<Flaws, NoMemory>
    ensures value { IfOk result (λ fs. flaws_view fs ≡ flaw at code ∷ []) }
{
    let mut items = Vec::new(alloc);
    items.push(Flaw {
        place: at,
        code,
        name: Text::new(alloc),
    })?;
    Ok(Flaws { items })
}

/// A node with one fault.
pub fn bad(alloc: Global, at: Place, code: u16) -> Result<Answer, NoMemory>
    ensures view { IfOk result (λ a. (ts : List Ty) → answer_view ts a ≡ bad at code) }
    ensures within { IfOk result (λ a. (n : ℕ) → AnswerBelow n a) }
{
    let flaws = one_flaw(alloc, at, code)?;
    Ok(Answer::Wrong(flaws))
}

/// The faults, where there are some, or what is if there is none.
pub fn unless(items: Vec<Flaw>, answer: Answer) -> Answer
    ensures view { (ts : List Ty) → answer_view ts result ≡ unless (map flaw_view items.items) (answer_view ts answer) }
    ensures within { (n : ℕ) → AnswerBelow n answer → AnswerBelow n result }
{
    if items.is_empty() {
        return answer;
    }
    gone_answer(answer);
    Answer::Wrong(Flaws { items })
}

/// A value that is made when the program runs.
pub fn made(core: CoreExpr, ty: TypeId) -> Answer
    ensures view { (ts : List Ty) → answer_view ts result ≡ value (expr_view ts core) (tree_of ts ty) None }
    ensures within { (n : ℕ) → ty.0 < n → AnswerBelow n result }
{
    Answer::Value(Found {
        core,
        ty,
        value: None,
    })
}

/// Whether a node is typed.
pub fn is_known(answer: &Answer) -> bool
    ensures { (ts : List Ty) → result ≡ is_known (answer_view ts answer.now) }
{
    match answer {
        Answer::Wrong(_) | Answer::Unknown => false,
        _ => true,
    }
}
