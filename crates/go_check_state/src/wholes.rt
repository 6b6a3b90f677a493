//! Faults of a whole, which are told where all its parts have none (own): a function whose body does not
//! end, a `switch` or a `select` of too many clauses. The bodies of the function literals in it are parts
//! too, and typed later; so are the uses of its variables. Hence all are told at the end.

use crate::code::FaultCode;
use crate::state::Checker;
use gj_base::{NoMemory, Place};

/// How far the tables were when a whole began, or ended.
#[derive(Clone, Copy, Debug)]
pub struct Mark {
    faults: usize,
    untyped: usize,
    funcs: usize,
    objects: usize,
    symbols: usize,
    wholes: usize,
}

/// A part of a function's body, or all of it, and the fault that it has where its parts have none.
#[derive(Clone, Copy, Debug)]
pub struct WholeRow {
    func: u32,
    fault: Option<(FaultCode, Place)>,
    is_body: bool,
    /// Whether what was typed with it is.
    is_typed: bool,
    start: Mark,
    end: Mark,
    /// Its place, and that of the last label in it.
    labels: (Place, Place),
    is_told: bool,
}

impl Checker {
    /// How far the tables are.
    pub fn mark(&self) -> Mark {
        Mark {
            faults: self.faults.len(),
            untyped: self.untyped,
            funcs: self.funcs.len(),
            objects: self.objects.len(),
            symbols: self.symbols.len(),
            wholes: self.wholes.len(),
        }
    }

    // Whether nothing was told since, and all was typed.
    fn is_typed_since(&self, start: Mark) -> bool {
        self.faults.len() == start.faults && self.untyped == start.untyped
    }

    /// A fault of a statement of the present function that begins at the place, up to its last label.
    pub fn fault_of_whole(
        &mut self,
        code: FaultCode,
        place: Place,
        start: Mark,
        last: Place,
    ) -> Result<(), NoMemory> {
        let Some(func) = self.current else {
            return Ok(());
        };
        let row = WholeRow {
            func,
            fault: Some((code, place)),
            is_body: false,
            is_typed: self.is_typed_since(start),
            start,
            end: self.mark(),
            labels: (place, last),
            is_told: false,
        };
        self.wholes.push(row)?;
        Ok(())
    }

    /// The end of a function's body, and its fault.
    pub fn end_body(
        &mut self,
        func: u32,
        is_typed: bool,
        fault: Option<(FaultCode, Place)>,
        start: Mark,
    ) -> Result<(), NoMemory> {
        let nowhere = Place { file: 0, offset: 0 };
        let row = WholeRow {
            func,
            fault,
            is_body: true,
            is_typed: is_typed && self.is_typed_since(start),
            start,
            end: self.mark(),
            labels: (nowhere, nowhere),
            is_told: false,
        };
        self.wholes.push(row)?;
        Ok(())
    }

    /// Notes that a function, or a part of it, has a fault or isn't typed.
    pub fn spoil(&mut self, func: u32) -> Result<(), NoMemory> {
        self.spoiled.insert(func)?;
        Ok(())
    }

    /// Whether a function, or a part of it, has a fault or isn't typed.
    pub fn is_spoiled(&self, func: u32) -> bool {
        self.spoiled.contains(&func)
    }

    /// Tells the faults of wholes, once all bodies are typed: those of function literals before those of
    /// the functions around, which have lesser numbers.
    pub fn tell_wholes(&mut self) -> Result<(), NoMemory> {
        let mut order: Vec<(u32, usize)> = Vec::new(self.alloc);
        for number in 0..self.wholes.len() {
            if let Some(row) = self.wholes.get(number) {
                order.push((u32::MAX - row.func, number))?;
            }
        }
        order.sort_unstable_by_key(|at| (at.0, at.1));
        for number in 0..order.len() {
            if let Some((_, whole)) = order.get(number).copied() {
                self.tell_whole(whole)?;
            }
        }
        Ok(())
    }

    fn tell_whole(&mut self, number: usize) -> Result<(), NoMemory> {
        let Some(row) = self.wholes.get(number).copied() else {
            return Ok(());
        };
        let is_faultless = self.is_faultless(row);
        if let (Some((code, place)), true) = (row.fault, is_faultless) {
            self.fault(code, place)?;
            if let Some(row) = self.wholes.as_mut_slice().get_mut(number) {
                row.is_told = true;
            }
        }
        if row.is_body && (!is_faultless || row.fault.is_some()) {
            self.spoil(row.func)?;
        }
        Ok(())
    }

    // Whether no part of a whole has a fault.
    fn is_faultless(&self, row: WholeRow) -> bool {
        row.is_typed
            && !self.has_unused(row.start.objects, row.end.objects)
            && !self.has_unused_symbol(row.start.symbols, row.end.symbols)
            && !self.has_spoiled(row.start.funcs, row.end.funcs)
            && !self.has_told(row.start.wholes, row.end.wholes)
            && !self.has_label_fault(row.labels.0, row.labels.1)
    }

    fn has_unused(&self, start: usize, end: usize) -> bool {
        for id in start..end {
            if let Some(object) = self.objects.get(id) {
                if object.must_use && !object.used {
                    return true;
                }
            }
        }
        false
    }

    fn has_unused_symbol(&self, start: usize, end: usize) -> bool {
        for number in start..end {
            if let Some(row) = self.symbols.get(number) {
                if !self.any_used(row.objects) {
                    return true;
                }
            }
        }
        false
    }

    fn has_spoiled(&self, start: usize, end: usize) -> bool {
        for func in start..end {
            if func <= u32::MAX as usize && self.is_spoiled(func as u32) {
                return true;
            }
        }
        false
    }

    fn has_told(&self, start: usize, end: usize) -> bool {
        for number in start..end {
            if let Some(row) = self.wholes.get(number) {
                if row.is_told {
                    return true;
                }
            }
        }
        false
    }

    // Whether a fault stands at a place after one and not after another: labels are told at a body's end.
    fn has_label_fault(&self, start: Place, last: Place) -> bool {
        if start.offset >= last.offset {
            return false;
        }
        self.faults.iter().any(|row| row.place.file == start.file
            && row.place.offset > start.offset
            && row.place.offset <= last.offset)
    }
}
