//! Lists of expressions in the code, one cell after the other.

ghost use Rattle.std.specs.Prelude.{◌≡◌, ◌≤◌, List, Some};
ghost use Rattle.js_code.specs.Held.{part_of};
ghost use Rattle.js_code.specs.Parts.{Tree, as_exprs, exprs_at, tree_of, trees_of};
ghost use Rattle.js_simple.specs.Simple.{IsSomeCode};
ghost use Rattle.js_simple.specs.Cells.{exprs_of, count_of};

use js_code::code::{Code, Part};

/// The first expression of a list, and the list of those after it.
#[derive(Clone, Copy)]
pub struct Cell {
    pub first: u32,
    pub rest: u32,
}

// The cell that a part is.
fn cell_of(part: Part) -> Option<Cell>
    ensures value { (ts : List Tree) → as_exprs (Some (tree_of ts (part_of part.entry))) ≡ exprs_of ts result }
{
    match part {
        Part::More { first, rest } => Some(Cell { first, rest }),
        _ => None,
    }
}

/// The cell with which the list goes on that a part of the code stands for.
pub fn cell_at(code: &Code, i: u32) -> Option<Cell>
    ensures value { IsSomeCode code.now → exprs_at (trees_of code.now) i ≡ exprs_of (trees_of code.now) result }
{
    match code.get(i) {
        Some(part) => cell_of(part),
        None => None,
    }
}

/// How many expressions are in the list that a part of the code stands for, and never more.
pub fn count(code: &Code, first: u32) -> usize
    ensures at_most { IsSomeCode code.now → result ≤ count_of (exprs_at (trees_of code.now) first) }
{
    let mut list = first;
    let parts = code.len();
    for turn in 0..parts {
        match cell_at(code, list) {
            Some(cell) => list = cell.rest,
            None => return turn,
        }
    }
    parts
}
