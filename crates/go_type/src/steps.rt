//! What a selection answers.

use crate::types::TypeId;
use std::alloc::Global;
use std::marker::Model;

/// A step from a value to a part of it.
#[derive(Clone, Copy, Debug, PartialEq, Eq)]
pub enum Step {
    /// To the field at a place of the struct.
    Field(u32),
    /// To what a pointer points to.
    Pointer,
}

/// Steps in order, which contracts see as a list.
#[derive(Debug, Drop)]
pub struct Path {
    steps: Vec<Step>,
}

impl Model for Path {
    ghost use Rattle.std.specs.Prelude.{List};
    ghost use Rattle.go_type.specs.declared.steps.Step.{Step};

    ghost Value = { List Step };

    ghost view = { λ l. l.steps.items };
}

impl Path {
    ghost use Rattle.std.specs.Prelude.{◌≡◌, []};

    /// No step; takes no memory.
    pub fn new(alloc: Global) -> Path
        ensures { result ≡ [] }
    {
        Path {
            steps: Vec::new(alloc),
        }
    }

    /// These steps; takes no memory.
    pub fn from_vec(steps: Vec<Step>) -> Path
        ensures { result ≡ steps.items }
    {
        Path { steps }
    }

    /// The steps.
    pub fn as_slice(&self) -> &[Step]
        ensures { result.now ≡ self.now }
    {
        self.steps.as_slice()
    }
}

/// What a name selects in a type.
#[derive(Debug, Drop)]
pub enum Selected {
    /// Nothing has that name.
    Missing,
    /// At the shallowest depth there are several.
    Ambiguous,
    /// A field, and the steps to it.
    Field(Path),
    /// A method: the steps to its receiver, and the type that declares it.
    Method(Path, TypeId),
}
