//! The types that embedding leads to, the nearest first, each once. Go, "Struct types", "Selectors".

use crate::shape::Shape;
use crate::state::Checker;
use gj_base::NoMemory;
use go_type::steps::Step;
use go_type::types::TypeId;
use std::alloc::Global;
use std::collections::HashMap;

/// A type that embedding leads to.
#[derive(Clone, Copy, Debug)]
pub struct Stop {
    pub ty: TypeId,
    /// The stop before it, and the field that leads on from there; none of the first.
    before: Option<(usize, u32)>,
    /// Whether that field is a pointer, and whether any on the way is.
    follows: bool,
    pub indirect: bool,
    /// Whether several ways of one length lead there.
    pub several: bool,
}

/// All stops so far, by their distance.
#[derive(Drop)]
pub struct Ways {
    alloc: Global,
    pub stops: Vec<Stop>,
    numbers: HashMap<u64, usize>,
    /// Where those of the greatest distance begin.
    pub start: usize,
}

impl Ways {
    /// The type itself.
    pub fn new(alloc: Global, t: TypeId) -> Result<Ways, NoMemory> {
        let mut ways = Ways {
            alloc,
            stops: Vec::new(alloc),
            numbers: HashMap::new(alloc),
            start: 0,
        };
        let first = Stop {
            ty: t,
            before: None,
            follows: false,
            indirect: false,
            several: false,
        };
        ways.add(first, 0)?;
        Ok(ways)
    }

    // One more stop, of those from a number on: a type that is nearer too is left out.
    fn add(&mut self, stop: Stop, start: usize) -> Result<(), NoMemory> {
        match self.numbers.get(&stop.ty.0).copied() {
            None => {
                self.numbers.insert(stop.ty.0, self.stops.len())?;
                self.stops.push(stop)?;
            }
            Some(number) if number >= start => {
                if let Some(stop) = self.stops.as_mut_slice().get_mut(number) {
                    stop.several = true;
                }
            }
            Some(_) => {}
        }
        Ok(())
    }

    /// Goes one field farther. Answers whether there are such types.
    pub fn go_on(&mut self, c: &Checker) -> Result<bool, NoMemory> {
        let end = self.stops.len();
        for number in self.start..end {
            if let Some(stop) = self.stops.get(number).copied() {
                self.go_on_from(c, number, stop, end)?;
            }
        }
        self.start = end;
        Ok(self.stops.len() > end)
    }

    fn go_on_from(
        &mut self,
        c: &Checker,
        number: usize,
        stop: Stop,
        end: usize,
    ) -> Result<(), NoMemory> {
        let Shape::Struct(count) = c.shape(stop.ty) else {
            return Ok(());
        };
        for field in 0..count {
            match c.field(stop.ty, field) {
                Some(row) if row.embedded && field <= u32::MAX as usize => {
                    let (ty, follows) = target(c, row.ty);
                    let next = Stop {
                        ty,
                        before: Some((number, field as u32)),
                        follows,
                        indirect: stop.indirect || follows,
                        several: stop.several,
                    };
                    self.add(next, end)?;
                }
                _ => {}
            }
        }
        Ok(())
    }

    /// The steps to a stop, behind others.
    pub fn steps_to(&self, number: usize, steps: &mut Vec<Step>) -> Result<(), NoMemory> {
        let mut back: Vec<Step> = Vec::new(self.alloc);
        let mut at = number;
        for _ in 0..self.stops.len() {
            let Some(stop) = self.stops.get(at).copied() else {
                break;
            };
            let Some((before, field)) = stop.before else {
                break;
            };
            if stop.follows {
                back.push(Step::Pointer)?;
            }
            back.push(Step::Field(field))?;
            at = before;
        }
        for step in back.iter().rev() {
            steps.push(*step)?;
        }
        Ok(())
    }
}

// What an embedded field's type leads to, and whether that is through a pointer.
fn target(c: &Checker, t: TypeId) -> (TypeId, bool) {
    match c.level(t) {
        Shape::Pointer(of) => (of, true),
        _ => (t, false),
    }
}
