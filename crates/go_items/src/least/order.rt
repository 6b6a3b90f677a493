//! The least of several faults.

ghost use Rattle.std.specs.Prelude.{◌≡◌, ◌∷◌, List, Some, map};
ghost use Rattle.go_typing.specs.Answer as typing;
ghost use Rattle.go_typing.specs.Checked.{is_before, least};
ghost use Rattle.go_operands.specs.AnswerView.{flaw_view};
ghost use Rattle.go_items.specs.Shown.{shown, least_after};

use go_operands::answers::answer::Flaw;

// Whether a fault comes before another: by its file, then by its offset, then by its code.
fn is_before(one: &Flaw, other: &Flaw) -> bool
    ensures value { result ≡ is_before (flaw_view one.now) (flaw_view other.now) }
{
    one.place.file < other.place.file
        || one.place.file == other.place.file
            && (one.place.offset < other.place.offset
                || one.place.offset == other.place.offset && one.code < other.code)
}

// The lesser of the least one so far, if there is one, and one more.
fn lesser<'a>(found: Option<&'a Flaw>, one: &'a Flaw) -> &'a Flaw
    ensures value { (rest : List typing.Flaw) → least_after (Some (flaw_view result.now)) rest ≡ least_after (shown found.entry) (flaw_view one.now ∷ rest) }
{
    let Some(other) = found else {
        return one;
    };
    if is_before(one, other) { one } else { other }
}

/// The least fault, by file, offset and code; the first of equal ones, and none of none.
pub fn least(flaws: &[Flaw]) -> Option<&Flaw>
    ensures value { shown result ≡ least (map flaw_view flaws.now) }
{
    let mut found = None;
    for one in flaws {
        found = Some(lesser(found, one));
    }
    found
}
