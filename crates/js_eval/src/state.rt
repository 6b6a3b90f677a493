//! What parts of a script are evaluated with, and what they come to: ECMA-262 5.1, 8.9 and 10.

use gj_base::{NoMemory, Text};
use js_tree::{JsExpr, JsExprs, JsStmts, Script};
use js_value::value::value::Value;
use std::alloc::{AllocError, AllocFailed, Global};

/// How a run ends.
#[derive(Drop)]
pub enum End {
    /// No tick was left.
    Going,
    /// With a status and a text.
    Ended(u8, Text),
    /// The operation at an offset has no meaning.
    Stuck(u32),
}

/// Why an evaluation gave no answer.
#[derive(Drop)]
pub enum Stop<'a> {
    /// A throw by the statement at an offset.
    Throw(u32, Value<'a>),
    /// The run has ended.
    Over(End),
    /// Calls nested deeper than they may.
    TooDeep,
    NoMemory,
}

impl<'a> From<NoMemory> for Stop<'a> {
    ghost use Rattle.std.specs.Prelude.{◌≡◌};
    ghost use Rattle.js_eval.specs.declared.state.Stop.TheVariants as stop;

    ghost from_gives = { λ _ r. r ≡ stop.NoMemory };

    fn from(_e: NoMemory) -> Stop<'a> {
        Stop::NoMemory
    }
}

impl<'a> From<AllocError> for Stop<'a> {
    ghost use Rattle.std.specs.Prelude.{◌≡◌};
    ghost use Rattle.js_eval.specs.declared.state.Stop.TheVariants as stop;

    ghost from_gives = { λ _ r. r ≡ stop.NoMemory };

    fn from(_e: AllocError) -> Stop<'a> {
        Stop::NoMemory
    }
}

impl<'a, T: Drop> From<AllocFailed<T>> for Stop<'a> {
    ghost use Rattle.std.specs.Prelude.{◌≡◌};
    ghost use Rattle.js_eval.specs.declared.state.Stop.TheVariants as stop;

    ghost from_gives = { λ _ r. r ≡ stop.NoMemory };

    fn from(_e: AllocFailed<T>) -> Stop<'a> {
        Stop::NoMemory
    }
}

/// How a statement completes other than by a throw: 8.9.
#[derive(Drop)]
pub enum Flow<'a> {
    Onward,
    Breaks(&'a Option<Text>),
    Continues(&'a Option<Text>),
    Returns(Option<Value<'a>>),
}

/// The script, the numbers to choose by, and how many calls may nest.
#[derive(Clone, Copy)]
pub struct Context<'a> {
    pub alloc: Global,
    pub script: &'a Script,
    pub choices: &'a [u64],
    /// As many ticks as there are at most.
    pub fuel: u64,
    pub depth: u32,
}

/// The names of a function's locals, and what the innermost `catch` caught.
#[derive(Drop)]
pub struct Scope<'n, 'a> {
    pub names: &'n [&'a Text],
    pub caught: Option<Value<'a>>,
}

/// A loop: the offset of its statement, its label, its condition, if it has one, and its body.
#[derive(Clone, Copy)]
pub struct Loop<'a> {
    pub at: u32,
    pub label: &'a Option<Text>,
    pub test: Option<&'a JsExpr>,
    pub body: &'a JsStmts,
}

/// The parts of a call.
#[derive(Clone, Copy)]
pub struct CallParts<'a> {
    pub callee: &'a JsExpr,
    pub arguments: &'a JsExprs,
}

/// What the block after `try` comes to, or what it threw.
#[derive(Drop)]
pub enum Tried<'a> {
    Done(Result<Flow<'a>, Stop<'a>>),
    Threw(Value<'a>),
}
