//! `iota`: the number of the constant specification that is typed.
//!
//! Go, "Iota".

ghost use Rattle.std.specs.Prelude.{◌≡◌, pos, Some, None, IsTrue, ◌↔◌, codes, bytes_eq, option_map};
ghost use Rattle.go_operands.specs.Counted.{Counts, Counts-prop, number_of, what_named, place_named};

use crate::scopes::declared::Declared;
use gj_base::Place;
use go_const::Const;
use go_type::types::TypeId;

const UNTYPED_INT: TypeId = TypeId(4);

/// What `iota` stands for in a constant specification, and nothing outside of one.
#[derive(Drop)]
pub struct Iota {
    what: Option<Declared>,
    pub ghost counts: { Counts what } by { Counts-prop what },
}

impl Iota {
    /// The number of a constant specification, or none.
    pub fn new(number: Option<u64>) -> Iota
        ensures value { number_of result.what ≡ number }
    {
        let what = match number {
            Some(n) => Some(Declared::Const(Const::Int(n as i128), UNTYPED_INT)),
            None => None,
        };
        Iota { what }
    }

    /// What the name stands for, if it is `iota`.
    pub fn find(&self, name: &[u8]) -> Option<&Declared>
        ensures value { option_map (λ d. d.now) result ≡ what_named name.now self.now.what }
    {
        if name == b"iota".as_slice() {
            return self.what.as_ref();
        }
        None
    }

    /// Where the name stands, if it is `iota`: nowhere, as each predeclared name.
    pub fn place(&self, name: &[u8]) -> Option<Place>
        ensures value { result ≡ place_named name.now self.now.what }
    {
        match self.find(name) {
            Some(_) => Some(Place { file: 0, offset: 0 }),
            None => None,
        }
    }
}
