//! What a search at one depth sees of the members there.

ghost use Rattle.std.specs.Prelude.{◌≡◌, ℕ};
ghost use Rattle.go_type.specs.Hits.{join, after, when, IsIn};

use crate::types::{Sig, TypeId};

/// No member, several, a field, or a method: the type that declares it, whether it is on the pointer,
/// whether a pointer is followed on
/// the way to its receiver, and its signature.
#[derive(Clone, Copy, Debug)]
pub enum Hit<'a> {
    Nothing,
    Several,
    Field,
    Method(TypeId, bool, bool, &'a Sig),
}

/// Of the members of two lists.
pub fn join<'a>(a: Hit<'a>, b: Hit<'a>) -> Hit<'a>
    ensures value { result ≡ join a.entry b.entry }
    ensures within { (n : ℕ) → IsIn n a.entry → IsIn n b.entry → IsIn n result }
{
    match a {
        Hit::Nothing => b,
        _ => match b {
            Hit::Nothing => a,
            _ => Hit::Several,
        },
    }
}

/// Behind steps that follow a pointer, or don't.
pub fn after(follows: bool, hit: Hit<'_>) -> Hit<'_>
    ensures value { result ≡ after follows hit.entry }
    ensures within { (n : ℕ) → IsIn n hit.entry → IsIn n result }
{
    match hit {
        Hit::Method(id, on_pointer, indirect, sig) => {
            Hit::Method(id, on_pointer, follows || indirect, sig)
        }
        _ => hit,
    }
}

/// This, where the test holds.
pub fn when(test: bool, hit: Hit<'_>) -> Hit<'_>
    ensures value { result ≡ when test hit.entry }
    ensures within { (n : ℕ) → IsIn n hit.entry → IsIn n result }
{
    if test { hit } else { Hit::Nothing }
}
