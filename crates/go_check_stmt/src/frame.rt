//! What is known of the function whose body is checked.

use gj_base::{NoMemory, Place};
use go_check_state::node::VarRef;
use go_check_state::{Checker, FaultCode, NameId};
use go_type::types::TypeId;
use std::alloc::Global;

/// A label of the function.
#[derive(Clone, Copy, Debug)]
pub struct LabelRow {
    pub name: NameId,
    pub place: Place,
    pub used: bool,
}

/// A statement that a branch may leave, or go on with.
#[derive(Clone, Copy, Debug)]
pub struct TargetRow {
    pub label: Option<NameId>,
    pub number: u32,
    pub is_loop: bool,
}

/// The function's signature, its result variables, its labels and the statements around.
#[derive(Drop)]
pub struct Frame {
    pub sig: TypeId,
    pub results: Vec<VarRef>,
    pub named: bool,
    pub labels: Vec<LabelRow>,
    pub targets: Vec<TargetRow>,
    /// The label that stands before the next statement.
    pub label: Option<NameId>,
}

impl Frame {
    /// The frame of a function.
    pub fn new(alloc: Global, sig: TypeId) -> Frame {
        Frame {
            sig,
            results: Vec::new(alloc),
            named: false,
            labels: Vec::new(alloc),
            targets: Vec::new(alloc),
            label: None,
        }
    }

    /// The label that stands before a statement, which no later one has.
    pub fn take_label(&mut self) -> Option<NameId> {
        let label = self.label;
        self.label = None;
        label
    }

    /// Enters a statement that a branch may leave, with the label before it. Answers its number.
    pub fn enter(
        &mut self,
        c: &mut Checker,
        label: Option<NameId>,
        is_loop: bool,
    ) -> Result<u32, NoMemory> {
        let number = c.fresh_label();
        self.targets.push(TargetRow {
            label,
            number,
            is_loop,
        })?;
        Ok(number)
    }

    /// Leaves it.
    pub fn leave(&mut self) {
        self.targets.pop();
    }

    /// Notes that a label is named.
    pub fn use_label(&mut self, name: NameId) {
        for row in self.labels.iter_mut() {
            if row.name == name {
                row.used = true;
            }
        }
    }

    /// The statement that a branch leads to. Go, "Break statements", "Continue statements".
    pub fn target(&self, label: Option<NameId>, continues: bool) -> Option<u32> {
        for row in self.targets.iter().rev() {
            let is_named = label.is_none() || row.label == label;
            if is_named && (row.is_loop || !continues) {
                return Some(row.number);
            }
        }
        None
    }

    /// F90 at each label that nothing names.
    pub fn tell_labels(&self, c: &mut Checker) -> Result<(), NoMemory> {
        for row in self.labels.iter() {
            if !row.used {
                c.fault_of(FaultCode::UnusedLabel, row.place, row.name)?;
            }
        }
        Ok(())
    }
}
