//! How many scalars a type has.

ghost use Rattle.std.specs.Prelude.{◌≡◌, ◌<◌, ◌≤◌, ◌*◌, ℕ, min, max};
ghost use Rattle.go_type.specs.Levels.{level, tree_of, fields_of, Below, FieldsBelow};
ghost use Rattle.go_type.specs.Table.{places, names, size, name_count};
ghost use Rattle.go_type.specs.Parts.{size_at, size_within, sum_fields};
ghost use Rattle.go_type.specs.Memo.{RemembersSizes};

use crate::memo::{keep_size, no_sizes, size_known};
use crate::table::TypeTable;
use crate::types::{FieldRow, GoType, TypeId};
use arrayvec::ArrayVec;

// The most scalars of a type, and one more (own).
const PAST_LIMIT: u64 = 0x10_0001;

// An array's scalars, up to the cap.
#[tactic(auto, using(crate::proofs::PartLemmas::times_capped))]
fn capped_array(count: u32, element: u64) -> u64
    requires { element ≤ PAST_LIMIT }
    ensures { (s : ℕ) → element ≡ min s PAST_LIMIT → result ≡ min (max 1 (count * s)) PAST_LIMIT }
{
    (u64::from(count) * element).max(1).min(PAST_LIMIT)
}

// The scalars of a level, up to the cap.
#[cycle(count)]
fn count_level(
    table: &TypeTable,
    at: &GoType,
    left: u64,
    memo: &mut ArrayVec<(u64, u64, u64), 256>,
) -> u64
    requires at { Below (size table.now) (name_count table.now) at.now }
    requires memo { RemembersSizes PAST_LIMIT (names table.now) (places table.now) memo.old.items }
    ensures value { result ≡ min (size_at (names table.now) (size_within (names table.now) left) (level (places table.now) at.now)) PAST_LIMIT }
    ensures memo { RemembersSizes PAST_LIMIT (names table.now) (places table.now) memo.new.items }
{
    match at {
        GoType::Array(n, element) => capped_array(*n, count(table, *element, left, memo)),
        GoType::Struct(fields) => count_fields(table, fields.as_slice(), left, memo).max(1),
        GoType::Named(id) => match table.under_of(*id) {
            Some(under) => count(table, under, left, memo),
            None => 1,
        },
        _ => 1,
    }
}

// The scalars of these fields, up to the cap.
#[cycle(count)]
fn count_fields(
    table: &TypeTable,
    fields: &[FieldRow],
    left: u64,
    memo: &mut ArrayVec<(u64, u64, u64), 256>,
) -> u64
    requires fields { FieldsBelow (size table.now) fields.now }
    requires memo { RemembersSizes PAST_LIMIT (names table.now) (places table.now) memo.old.items }
    ensures value { result ≡ min (sum_fields (size_within (names table.now) left) (fields_of (places table.now) fields.now)) PAST_LIMIT }
    ensures memo { RemembersSizes PAST_LIMIT (names table.now) (places table.now) memo.new.items }
{
    let mut sum = 0;
    let mut rest = fields;
    'fields: while let Some((field, others)) = rest.split_first() {
        if sum == PAST_LIMIT {
            return sum;
        }
        sum = (sum + count(table, field.ty, left, memo)).min(PAST_LIMIT);
        rest = others;
    }
    sum
}

// The scalars of a type, up to the cap.
#[cycle(count)]
fn count(table: &TypeTable, t: TypeId, left: u64, memo: &mut ArrayVec<(u64, u64, u64), 256>) -> u64
    requires t { t.0 < size table.now }
    requires memo { RemembersSizes PAST_LIMIT (names table.now) (places table.now) memo.old.items }
    ensures value { result ≡ min (size_within (names table.now) left (tree_of (places table.now) t)) PAST_LIMIT }
    ensures memo { RemembersSizes PAST_LIMIT (names table.now) (places table.now) memo.new.items }
{
    if left == 0 {
        return 1;
    }
    match size_known(memo.as_slice(), t.0, left) {
        Some(scalars) => scalars,
        None => {
            let scalars = count_level(table, table.get(t), left - 1, memo);
            let _ = keep_size(memo, (t.0, left, scalars));
            scalars
        }
    }
}

impl TypeTable {
    ghost use Rattle.std.specs.Prelude.{◌<◌, ◌≤◌, ℕ, MatchOption};
    ghost use Rattle.go_type.specs.Levels.{tree_of};
    ghost use Rattle.go_type.specs.Table.{places, names, size};
    ghost use Rattle.go_type.specs.Parts.{IsFinite, HasSize};

    /// How many scalars the type has, at least 1, or none where there are more than 1048576 (own).
    pub fn size_of(&self, t: TypeId) -> Option<u32>
        requires t { t.0 < size self.now }
        requires finite { IsFinite self.now t }
        ensures { MatchOption result ((s : ℕ) × HasSize (names self.now) (tree_of (places self.now) t) s × (1048576 < s)) (λ s. HasSize (names self.now) (tree_of (places self.now) t) s × (s ≤ 1048576)) }
    {
        let scalars = count(self, t, self.len(), &mut no_sizes());
        if 1048576 < scalars {
            return None;
        }
        Some(scalars as u32)
    }
}
