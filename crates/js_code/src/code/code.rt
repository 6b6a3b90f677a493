//! Code: parts by their numbers.

ghost use Rattle.std.specs.Prelude.{◌≡◌, [], length, slice_get, option_map, OnOk, IfOk};
ghost use Rattle.js_code.specs.Held.{part_of};
ghost use Rattle.js_code.specs.Parts.{last, with_part};

use crate::code::part::Part;
use gj_base::NoMemory;
use std::alloc::Global;
use std::marker::Model;

/// Parts by their numbers, from 0 on. Contracts see the list of the parts.
#[derive(Drop)]
pub struct Code<'a> {
    parts: Vec<Part<'a>>,
}

impl<'a> Model for Code<'a> {
    ghost use Rattle.std.specs.Prelude.{List};
    ghost use Rattle.js_code.specs.Held.{parts_of};
    ghost use Rattle.js_code.specs.Parts as list;

    ghost Value = { List list.Part };

    ghost view = { λ c. parts_of c.parts.items };
}

/// A number of 32 bits; a larger one has no room here.
pub fn narrow(n: usize) -> Result<u32, NoMemory>
    ensures value { IfOk result (λ m. m ≡ n) }
{
    if n > u32::MAX as usize {
        return Err(NoMemory);
    }
    Ok(n as u32)
}

impl<'a> Code<'a> {
    /// No parts.
    pub fn new(alloc: Global) -> Code<'a>
        ensures { result ≡ [] }
    {
        Code {
            parts: Vec::new(alloc),
        }
    }

    /// How many there are.
    pub fn len(&self) -> usize
        ensures { result ≡ length self.now }
    {
        self.parts.len()
    }

    /// The part with a number.
    pub fn get(&self, i: u32) -> Option<Part<'a>>
        ensures value { option_map part_of result ≡ slice_get self.now i }
    {
        self.parts.get(i as usize).copied()
    }

    /// Adds a part, and gives its number.
    pub fn add(&mut self, part: Part<'a>) -> Result<u32, NoMemory>
        ensures value { OnOk result (self.new ≡ with_part self.old (part_of part.entry)) }
        ensures last { IfOk result (λ n. n ≡ last self.new) }
    {
        let number = narrow(self.parts.len())?;
        self.parts.push(part)?;
        Ok(number)
    }
}
