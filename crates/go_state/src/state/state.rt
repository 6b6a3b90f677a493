//! Goroutines and the state of a run.
//!
//! The Go Programming Language Specification (as of Go 1.17), "Go statements", "Program execution".

ghost use Rattle.std.specs.Prelude.{◌≡◌, ◌+◌, IfOk};

use crate::state::frame::Frame;
use gj_base::NoMemory;
use go_core::node::Var;
use go_core::statement::CoreStmts;
use go_values::values::memory::Memory;
use go_values::values::scalar::Scalar;

/// What a clause of a select does once its communication is done: fresh variables take what was
/// received, and then its body is run.
#[derive(Clone, Copy)]
pub struct Clause<'p> {
    pub vars: &'p [Var],
    pub body: &'p CoreStmts,
}

/// One way in which a waiting operation can proceed, with what is done then.
#[derive(Clone, Copy)]
pub enum Offer<'p, 'a> {
    Sending {
        channel: Option<u64>,
        value: &'a [Scalar<'a>],
        units: u64,
        after: Option<Clause<'p>>,
    },
    /// Gives so many of: what was received, and whether it was sent.
    Receiving {
        channel: Option<u64>,
        zero: &'a [Scalar<'a>],
        units: u64,
        values: u64,
        after: Option<Clause<'p>>,
    },
}

/// What a goroutine waits for.
#[derive(Drop)]
pub enum Waiting<'p, 'a> {
    Able,
    AtChannels(Vec<Offer<'p, 'a>>),
    /// A gate, by the base of its cell.
    AtTake(u64),
    AtAwait(u64),
}

/// A goroutine, with the running frame last. It has ended where there is none.
#[derive(Drop)]
pub struct Goroutine<'p, 'a> {
    pub frames: Vec<Frame<'p, 'a>>,
    pub waiting: Waiting<'p, 'a>,
}

/// How a run has ended.
#[derive(Clone, Copy)]
pub enum End<'a> {
    Going,
    /// `main` has returned, or the program has asked for an end with this status.
    Exit(u32),
    /// Nobody recovered from a panic with this text.
    Panicked(&'a [u8]),
    /// A fatal error with this text.
    Fatal(&'a [u8]),
}

/// A moment of a run.
#[derive(Drop)]
pub struct State<'p, 'a> {
    pub goroutines: Vec<Goroutine<'p, 'a>>,
    pub memory: Memory<'a>,
    pub printed: Vec<u8>,
    /// How many numbers of the list of choices were taken.
    pub taken: u64,
    pub units: u64,
    pub end: End<'a>,
}

/// What Go leaves free at a step.
#[derive(Clone, Copy)]
pub struct Move {
    /// Which goroutine moves.
    pub goroutine: u64,
    /// Which of its ready ways a waiting goroutine takes.
    pub way: u64,
    /// Which goroutine is the partner, and which of its ways is meant.
    pub partner: u64,
    pub partner_way: u64,
    /// The capacity of the new array of an append.
    pub capacity: u64,
    /// The birth of the next entry of a map's range, or none for its end.
    pub birth: Option<u64>,
}

// So many units more. No memory where no `u64` holds their sum.
fn more(m: u64, n: u64) -> Result<u64, NoMemory>
    ensures value { IfOk result (λ k. k ≡ m + n) }
{
    match m.checked_add(n) {
        Some(k) => Ok(k),
        None => Err(NoMemory),
    }
}

impl<'p, 'a> State<'p, 'a> {
    ghost use Rattle.std.specs.Prelude.{List, OnOk, ◌<◌, vec_len};
    ghost use Rattle.go_type.specs.Tree.{Ty};
    ghost use Rattle.go_state.specs.Moved.{HasMoved};

    /// After a step of a goroutine, whose frames are as they are now: it is able, and so many units
    /// more are counted. No memory where no `u64` holds their sum.
    pub fn count_move(&mut self, goroutine: usize, units: u64) -> Result<(), NoMemory>
        requires goroutine { goroutine < vec_len self.old.goroutines }
        ensures value { OnOk result ((ts : List Ty) → HasMoved ts goroutine units self.old self.new) }
    {
        let all = more(self.units, units)?;
        self.units = all;
        let moved = &mut self.goroutines[goroutine];
        moved.waiting = Waiting::Able;
        Ok(())
    }
}
