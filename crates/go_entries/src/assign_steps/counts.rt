//! How many operands left sides take.
//!
//! The Go Programming Language Specification (as of Go 1.17), "Assignments".

ghost use Rattle.std.specs.Prelude.{◌≡◌, ◌+◌, ℕ, [], ◌∷◌, List, IfOk, map};
ghost use Rattle.go_type.specs.Tree.{Ty};
ghost use Rattle.go_core.specs.Assign as assigning;
ghost use Rattle.go_core.specs.CoreTree.{CoreProgram};
ghost use Rattle.go_core.specs.CoreView.{place_view, target_view};

use gj_base::NoMemory;
use go_core::node::{CorePlace, PlaceForm};
use go_core::statement::{Target, Targets};

// So many more.
fn more(m: usize, n: usize) -> Result<usize, NoMemory>
    ensures value { IfOk result (λ k. k ≡ m + n) }
{
    match m.checked_add(n) {
        Some(k) => Ok(k),
        None => Err(NoMemory),
    }
}

// How many operands the place of a left side takes.
fn operand_count(place: &CorePlace) -> Result<usize, NoMemory>
    ensures value { IfOk result (λ n. (ts : List Ty) (p : CoreProgram) (g : ℕ) → n ≡ assigning.operand_count p g (place_view ts place.now)) }
{
    match &*place.form {
        PlaceForm::Local(_) => Ok(0),
        PlaceForm::Global(_) => Ok(0),
        PlaceForm::Deref(_) => Ok(1),
        PlaceForm::Field { place, .. } => operand_count(place),
        PlaceForm::Elem { place, .. } => {
            let others = operand_count(place)?;
            more(1, others)
        }
        PlaceForm::SliceElem { .. } => Ok(2),
    }
}

fn target_count(target: &Target) -> Result<usize, NoMemory>
    ensures value { IfOk result (λ n. (ts : List Ty) (p : CoreProgram) (g : ℕ) → n ≡ assigning.target_operands p g (target_view ts target.now ∷ [])) }
{
    match target {
        Target::Blank => Ok(0),
        Target::Place { place, .. } => operand_count(place),
        Target::Entry { .. } => Ok(2),
    }
}

/// How many operands left sides take.
pub fn target_operands(targets: &Targets) -> Result<usize, NoMemory>
    ensures value { IfOk result (λ n. (ts : List Ty) (p : CoreProgram) (g : ℕ) → n ≡ assigning.target_operands p g (map (target_view ts) targets.now.items.items)) }
{
    let mut count = 0;
    'targets: for i in 0..targets.items.len() {
        let one = target_count(&targets.items[i])?;
        count = more(count, one)?;
    }
    Ok(count)
}
