//! Frames. Stacks lie with their next element last.
//!
//! The Go Programming Language Specification (as of Go 1.17), "Calls", "Defer statements",
//! "Handling panics": frames and tasks are own.

use crate::tasks::task::Task;
use go_core::node::{Var, VarId};
use go_core::statement::{CoreStmts, Label, Targets};
use go_core::tree::FuncId;
use go_type::types::TypeId;
use go_values::values::scalar::Scalar;

/// How far a range has come.
#[derive(Clone, Copy)]
pub enum Cursor<'a> {
    /// So many numbers.
    Numbers {
        next: u64,
        count: u64,
    },
    /// What is left of an array's copy.
    Copied {
        next: u64,
        left: &'a [Scalar<'a>],
    },
    /// The elements that lie from a base on.
    Elements {
        next: u64,
        count: u64,
        base: u64,
    },
    /// What is left of a text.
    Characters {
        offset: u64,
        left: &'a [u8],
    },
    /// A map's entries: births of those that were produced, the last one first, and the birth from
    /// which on entries were born since.
    Entries {
        map: Option<u64>,
        produced: &'a [u64],
        since: u64,
    },
}

/// What a range goes over, and where its key and value go.
#[derive(Clone, Copy)]
pub struct Range<'p> {
    pub label: Label,
    pub from: TypeId,
    pub key: Option<Var>,
    pub value: Option<Var>,
    pub body: &'p CoreStmts,
}

/// What a frame has to do next.
#[derive(Clone, Copy)]
pub enum Todo<'p, 'a> {
    /// As the program's text says it.
    Text(Task<'p>),
    /// A value that is there already, which is no step.
    Push(&'a [Scalar<'a>]),
    /// The receiver is read through the pointer to it.
    ReceiveThrough(Var),
    /// The left sides from a place on take their values.
    AssignRest {
        targets: &'p Targets,
        from: usize,
        operands: &'a [&'a [Scalar<'a>]],
        values: &'a [&'a [Scalar<'a>]],
    },
    /// The next turn of a range.
    NextRange(Range<'p>, Cursor<'a>),
    /// Fresh variables take what was received.
    BindVars(&'p [Var]),
    /// Package variables take values.
    SetGlobals(&'a [u64]),
    /// A function without parameters.
    Call(FuncId),
    /// `main` has returned.
    Finish,
}

/// A variable's base.
#[derive(Clone, Copy)]
pub struct Place {
    pub var: VarId,
    pub base: u64,
}

/// What a deferred call will be: a function with the bases that it captured, or a nil function.
#[derive(Clone, Copy)]
pub enum Invocation<'a> {
    Invoke {
        func: u64,
        bases: &'a [u64],
        row: Option<u64>,
        operands: &'a [&'a [Scalar<'a>]],
    },
    Nothing,
}

/// How a frame goes on.
#[derive(Clone, Copy)]
pub enum Mode<'a> {
    Normal,
    Returning,
    Panicking(Scalar<'a>),
}

/// What comes of a frame's results.
#[derive(Clone, Copy)]
pub enum Purpose {
    /// They go to the frame below.
    Called,
    /// A deferred call of the frame below: they are dropped.
    Deferred,
    /// The method `Error` of a panic's value: the result is told, and the run ends.
    Reporting,
}

/// A frame.
#[derive(Drop)]
pub struct Frame<'p, 'a> {
    /// None for the frame that runs initialisers.
    pub func: Option<u64>,
    pub tasks: Vec<Todo<'p, 'a>>,
    pub values: Vec<&'a [Scalar<'a>]>,
    pub places: Vec<Place>,
    pub deferred: Vec<Invocation<'a>>,
    /// The variables of its results.
    pub results: &'p [Var],
    pub mode: Mode<'a>,
    pub purpose: Purpose,
}
