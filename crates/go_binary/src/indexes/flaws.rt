//! The faults of what is indexed, of indexes and of bounds, one after another.

ghost use Rattle.std.specs.Prelude.{◌≡◌, ◌++◌, ◌∷◌, [], OnOk, IfOk, map};
ghost use Rattle.go_type.specs.Table.{places};
ghost use Rattle.go_typing.specs.Index.{indexed_flaws, index_flaws, edge_flaws};
ghost use Rattle.go_operands.specs.AnswerView.{flaw_view};
ghost use Rattle.go_binary.specs.IndexView.{indexed_view, index_view, edge_view};

use crate::indexes::kinds::{Edge, Index, Indexed};
use gj_base::NoMemory;
use go_operands::answers::answer::Flaw;
use go_type::TypeTable;
use std::alloc::Global;

fn and_copy(flaws: &mut Vec<Flaw>, flaw: &Flaw) -> Result<(), NoMemory>
    ensures value { OnOk result (map flaw_view flaws.new.items ≡ map flaw_view flaws.old.items ++ flaw_view flaw.now ∷ []) }
{
    let name = flaw.name.clone()?;
    flaws.push(Flaw {
        place: flaw.place,
        code: flaw.code,
        name,
    })?;
    Ok(())
}

fn and_copies(flaws: &mut Vec<Flaw>, more: &[Flaw]) -> Result<(), NoMemory>
    ensures value { OnOk result (map flaw_view flaws.new.items ≡ map flaw_view flaws.old.items ++ map flaw_view more.now) }
{
    let mut rest = more;
    'copies: while let Some((flaw, others)) = rest.split_first() {
        and_copy(flaws, flaw)?;
        rest = others;
    }
    Ok(())
}

/// Those of what is indexed, added to others.
pub fn and_indexed(table: &TypeTable, flaws: &mut Vec<Flaw>, x: &Indexed) -> Result<(), NoMemory>
    ensures value { OnOk result (map flaw_view flaws.new.items ≡ map flaw_view flaws.old.items ++ indexed_flaws (indexed_view (places table.now) x.now)) }
{
    let _ = table;
    match x {
        Indexed::Unfit(more) => and_copies(flaws, more.items.as_slice()),
        Indexed::Text(_, _, _) | Indexed::Unbuilt | Indexed::Other => Ok(()),
    }
}

/// Those of an index, added to others.
pub fn and_index(table: &TypeTable, flaws: &mut Vec<Flaw>, i: &Index) -> Result<(), NoMemory>
    ensures value { OnOk result (map flaw_view flaws.new.items ≡ map flaw_view flaws.old.items ++ index_flaws (index_view (places table.now) i.now)) }
{
    let _ = table;
    match i {
        Index::Unfit(more) => and_copies(flaws, more.items.as_slice()),
        Index::Value(_, _) | Index::None => Ok(()),
    }
}

/// Those of a bound, added to others.
pub fn and_edge(table: &TypeTable, flaws: &mut Vec<Flaw>, e: &Edge) -> Result<(), NoMemory>
    ensures value { OnOk result (map flaw_view flaws.new.items ≡ map flaw_view flaws.old.items ++ edge_flaws (edge_view (places table.now) e.now)) }
{
    match e {
        Edge::At(_, i) => and_index(table, flaws, i),
        Edge::Open => Ok(()),
    }
}

/// Those of what is indexed and of the index.
pub fn of_index(
    alloc: Global,
    table: &TypeTable,
    x: &Indexed,
    i: &Index,
) -> Result<Vec<Flaw>, NoMemory>
    ensures value { IfOk result (λ fs. map flaw_view fs.items ≡ indexed_flaws (indexed_view (places table.now) x.now) ++ index_flaws (index_view (places table.now) i.now)) }
{
    let mut flaws = Vec::new(alloc);
    and_indexed(table, &mut flaws, x)?;
    and_index(table, &mut flaws, i)?;
    Ok(flaws)
}

/// Those of what is sliced and of the bounds.
pub fn of_slice(
    alloc: Global,
    table: &TypeTable,
    x: &Indexed,
    low: &Edge,
    high: &Edge,
    most: &Edge,
) -> Result<Vec<Flaw>, NoMemory>
    ensures value { IfOk result (λ fs. map flaw_view fs.items ≡ indexed_flaws (indexed_view (places table.now) x.now) ++ edge_flaws (edge_view (places table.now) low.now) ++ edge_flaws (edge_view (places table.now) high.now) ++ edge_flaws (edge_view (places table.now) most.now)) }
{
    let mut flaws = Vec::new(alloc);
    and_indexed(table, &mut flaws, x)?;
    and_edge(table, &mut flaws, low)?;
    and_edge(table, &mut flaws, high)?;
    and_edge(table, &mut flaws, most)?;
    Ok(flaws)
}
