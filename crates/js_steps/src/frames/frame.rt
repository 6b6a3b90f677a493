//! What is still to be done.

use crate::bodies::Body;
use gj_base::{NoMemory, Text};
use js_simple::{Halt as NoValue, Slot};
use js_value::heap::Value;
use std::alloc::{AllocError, AllocFailed};

/// What is made of what a call gives.
#[derive(Clone, Copy, Debug, PartialEq, Eq)]
pub enum Use {
    /// A value is needed.
    Needed,
    /// A statement drops it.
    Dropped,
}

/// What a call leaves aside: the code of the caller, its variables, and what was caught there.
#[derive(Drop)]
pub struct Caller<'p, 'a> {
    pub body: &'p Body<'a>,
    pub locals: Vec<Slot<'a>>,
    pub caught: Option<Value<'a>>,
}

/// What waits for a part. Parts are told by their numbers in the code of the call.
#[derive(Drop)]
pub enum Frame<'p, 'a> {
    /// A part, for the value of the first expression in it.
    First(u32),
    /// For the second one, with the value of the first.
    Second(u32, Value<'a>),
    /// For the third one, with the values of the first two.
    Third(u32, Value<'a>, Value<'a>),
    /// A call, for what is called.
    Callee(u32, Use),
    /// A call at an offset, for an argument: what is called, the arguments before, and those after.
    Argument(u32, Use, Value<'a>, Vec<Value<'a>>, u32),
    /// An array, for an element: the elements before, and those after.
    Item(Vec<Value<'a>>, u32),
    /// The statements that follow, for the one before them.
    Rest(u32),
    /// A loop, for a turn.
    Turn(u32),
    /// The cases that follow, for the statements of the one before them.
    Through(u32),
    /// A `switch` with its label, for its cases.
    Switch(Option<&'a Text>),
    /// The block after `catch`, for the one before it.
    Catch(u32),
    /// A block after `catch`, with what was caught outside of it.
    Caught(Option<Value<'a>>),
    /// A call at an offset, for the body of the function.
    Leave(u32, Use, Caller<'p, 'a>),
}

/// How a statement completes other than by a throw: 8.9.
#[derive(Clone, Copy)]
pub enum Flow<'a> {
    Onward,
    Breaks(Option<&'a Text>),
    Continues(Option<&'a Text>),
    Returns(Option<Value<'a>>),
}

/// What is done next.
#[derive(Clone, Copy)]
pub enum Task<'a> {
    /// The expression that a part stands for.
    Evaluate(u32),
    Execute(u32),
    Statements(u32),
    /// What stands after the block of an `if`.
    Else(u32),
    /// The statements of all cases from here on.
    Through(u32),
    /// A value was found.
    Give(Value<'a>),
    /// A statement was completed.
    Follow(Flow<'a>),
    /// A value was thrown by the statement at an offset.
    Throw(u32, Value<'a>),
    /// `$write(s)`, before its tick.
    Write(u32, Use, &'a [u8]),
    /// `$pick(k)`, before its tick; k is 2 or more.
    Pick(u32, Use, u32),
}

/// How a run is over, but for what memory and the outside refuse.
#[derive(Clone, Copy)]
pub enum End<'a> {
    Going,
    Ended(u8, &'a [u8]),
    Stuck(u32),
}

/// Why a step leads nowhere.
#[derive(Clone, Copy)]
pub enum Halt<'a> {
    NoMemory,
    Over(End<'a>),
}

impl<'a> From<NoMemory> for Halt<'a> {
    ghost use Rattle.std.specs.Prelude.{◌≡◌};
    ghost use Rattle.js_steps.specs.declared.frames.frame.Halt.TheVariants as halt;

    ghost from_gives = { λ _ r. r ≡ halt.NoMemory };

    fn from(_e: NoMemory) -> Halt<'a> {
        Halt::NoMemory
    }
}

impl<'a> From<AllocError> for Halt<'a> {
    ghost use Rattle.std.specs.Prelude.{◌≡◌};
    ghost use Rattle.js_steps.specs.declared.frames.frame.Halt.TheVariants as halt;

    ghost from_gives = { λ _ r. r ≡ halt.NoMemory };

    fn from(_e: AllocError) -> Halt<'a> {
        Halt::NoMemory
    }
}

impl<'a, T: Drop> From<AllocFailed<T>> for Halt<'a> {
    ghost use Rattle.std.specs.Prelude.{◌≡◌};
    ghost use Rattle.js_steps.specs.declared.frames.frame.Halt.TheVariants as halt;

    ghost from_gives = { λ _ r. r ≡ halt.NoMemory };

    fn from(_e: AllocFailed<T>) -> Halt<'a> {
        Halt::NoMemory
    }
}

impl<'a> From<NoValue> for Halt<'a> {
    ghost use Rattle.std.specs.Prelude.{◌≡◌};
    ghost use Rattle.js_steps.specs.Stack.{halt_of};

    ghost from_gives = { λ e r. r ≡ halt_of e };

    fn from(e: NoValue) -> Halt<'a> {
        match e {
            NoValue::Stuck(at) => Halt::Over(End::Stuck(at)),
            NoValue::NoMemory => Halt::NoMemory,
        }
    }
}
