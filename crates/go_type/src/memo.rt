//! What was found of parts by value, so that a part that is held twice is gone into once. Nothing is
//! allocated; where there is no more room nothing more is kept.

ghost use Rattle.std.specs.Prelude.{◌≡◌, ◌++◌, [], ◌∷◌, false};
ghost use Rattle.std.specs.Bool.{OnTrue};
ghost use Rattle.go_type.specs.Memo.{is_known, size_known};

use arrayvec::ArrayVec;

/// Nothing yet.
pub fn no_memo() -> ArrayVec<(u64, u64), 256>
    ensures { result.items ≡ [] }
{
    ArrayVec::new()
}

/// Whether a type is known at this depth.
pub fn is_known(memo: &[(u64, u64)], id: u64, left: u64) -> bool
    ensures { result ≡ is_known id left memo.now }
{
    let mut rest = memo;
    'memo: while let Some((first, others)) = rest.split_first() {
        if id == first.0 && left == first.1 {
            return true;
        }
        rest = others;
    }
    false
}

/// One more; false where there is no room.
pub fn keep(memo: &mut ArrayVec<(u64, u64), 256>, entry: (u64, u64)) -> bool
    ensures kept { OnTrue result (memo.new.items ≡ memo.old.items ++ entry ∷ []) }
    ensures same { result ≡ false → memo.new.items ≡ memo.old.items }
{
    memo.try_push(entry).is_ok()
}

/// Nothing yet.
pub fn no_sizes() -> ArrayVec<(u64, u64, u64), 256>
    ensures { result.items ≡ [] }
{
    ArrayVec::new()
}

/// The size of a type, if it is known at this depth.
pub fn size_known(memo: &[(u64, u64, u64)], id: u64, left: u64) -> Option<u64>
    ensures { result ≡ size_known id left memo.now }
{
    let mut rest = memo;
    'memo: while let Some((first, others)) = rest.split_first() {
        if id == first.0 && left == first.1 {
            return Some(first.2);
        }
        rest = others;
    }
    None
}

/// One more; false where there is no room.
pub fn keep_size(memo: &mut ArrayVec<(u64, u64, u64), 256>, entry: (u64, u64, u64)) -> bool
    ensures kept { OnTrue result (memo.new.items ≡ memo.old.items ++ entry ∷ []) }
    ensures same { result ≡ false → memo.new.items ≡ memo.old.items }
{
    memo.try_push(entry).is_ok()
}
