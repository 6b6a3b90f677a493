//! The state of a translation, for one function after another.

ghost use Rattle.std.specs.Prelude.{◌≡◌, ◌&&◌, not, get_or};
ghost use Rattle.js_body.specs.State.{State, empty, no_function, begun, home_of, exits_of, exits_among, gone_on, gone_on_at, continued, next_slot, with_slots, next_case, with_cases, entered, is_continued, left, frame_tree, has_slot, mentioned, slot_tree, slot_read, slot_set, slot_begun};
ghost use Rattle.js_body.specs.Tells.{Tells, Lasts, Runs, Runs1, Gives, GivesNumber};
ghost use Rattle.js_pool.specs.Begins.{Begins};

use crate::frame::{BEGINNING, HEAD};
use crate::slices::Slices;
use crate::stack::fail;
use go_core::node::{Var, VarId};
use go_core::statement::Label;
use go_core::tree::FuncId;
use go_type::TypeTable;
use go_type::types::TypeId;
use js_facts::{Facts, VarFact};
use js_pool::{Cases, ExprId, Mark, Name, Pool};

/// What is known of a value before the script runs.
#[derive(Clone, Copy, PartialEq, Eq)]
pub enum Known {
    /// Nothing: it is a temporary.
    Nothing,
    /// A number of up to 32 bits.
    Number(i64),
    Nil,
    /// A constant of another kind.
    Constant,
    /// A variable of a plain function that isn't boxed: nothing but a statement's assignments changes it.
    Variable,
}

/// A value on the stack: a temporary, whose number is that of its place there, or a constant.
#[derive(Clone, Copy)]
pub struct Operand {
    pub e: ExprId,
    pub known: Known,
}

/// Where a variable is: in a slot, where it is boxed in an array of its own.
#[derive(Clone, Copy)]
pub struct Home {
    pub ty: TypeId,
    pub boxed: bool,
    pub slot: u32,
}

/// Where branches to a label lead: cases of a machine, or labels of a plain function's blocks.
#[derive(Clone, Copy)]
pub struct Exits {
    pub label: Label,
    pub after: u32,
    pub next: u32,
    /// Whether a branch went on with the next turn.
    pub continued: bool,
}

/// All that is known while functions become functions of the script.
#[derive(Drop)]
pub struct Body<'p> {
    pub pool: Pool,
    pub facts: Facts<'p>,
    /// Whether this is a plain function.
    pub plain: bool,
    /// The function; for what comes before `main` no function.
    pub func: Option<FuncId>,
    /// Slots of variables by their numbers.
    slots: Vec<u32>,
    /// The results, in order, and whether calls are deferred.
    pub results: Vec<Home>,
    pub defers: bool,
    /// Whether a plain function mentions its results.
    pub mentions_results: bool,
    /// Values, from the first one on; how many temporaries there are, and which a plain function declared.
    pub stack: Vec<Operand>,
    pub temps: u32,
    pub(crate) declared: Vec<bool>,
    /// How many loops of a plain function are around, and what is known of slices in them.
    pub loops: u32,
    pub slices: Slices,
    /// The labels around.
    pub exits: Vec<Exits>,
    pub next_case: u32,
    pub next_slot: u32,
    /// The case that is open, and where its statements begin; where the cases begin.
    pub open_case: u32,
    pub open_lines: Mark,
    pub first_case: Mark,
    /// So many numbers of arguments have adapters, from none on: frames that call a plain function.
    pub adapters: u32,
}

// Whether a variable has a slot.
fn has_slot(homes: &[Home], n: u32) -> bool
    ensures { result ≡ has_slot n homes.now }
{
    homes.iter().any(|h| h.slot == n)
}

// Whether a variable stands in an array of its own: a struct or an array is one.
fn is_boxed(fact: VarFact, block: bool) -> bool
    ensures { result ≡ fact.boxed && not block }
{
    fact.boxed && !block
}

// The slot of the variable with a number.
fn slot_at(slots: &[u32], n: u32) -> u32
    ensures { result ≡ get_or slots.now n 0 }
{
    match slots.get(n as usize) {
        Some(slot) => *slot,
        None => 0,
    }
}

// Where branches to a label lead, as these labels tell.
fn exits_among(exits: &[Exits], label: Label) -> Exits
    ensures { result ≡ exits_among label exits.now }
{
    for e in exits {
        if e.label.0 == label.0 {
            return *e;
        }
    }
    Exits {
        label,
        after: 0,
        next: 0,
        continued: false,
    }
}

// A branch goes on with the next turn of a label's loop.
fn gone_on(e: Exits, label: Label) -> Exits
    ensures { result ≡ gone_on label e }
{
    if e.label.0 == label.0 {
        Exits {
            label: e.label,
            after: e.after,
            next: e.next,
            continued: true,
        }
    } else {
        e
    }
}

// Notes that it does so, where the label at a place is this one.
fn note_at(exits: &mut Vec<Exits>, i: usize, label: Label)
    ensures { exits.new.items ≡ gone_on_at label i exits.old.items }
{
    if i < exits.len() {
        exits[i] = gone_on(exits[i], label);
    }
}

impl<'p> Body<'p> {
    /// A state with tables and facts, before any function.
    pub fn new(pool: Pool, facts: Facts<'p>) -> Body<'p>
        ensures { Begins pool → Lasts result → Tells result (empty (no_function facts.entry)) }
    {
        let alloc = pool.alloc;
        let open_lines = pool.open();
        let first_case = pool.open_cases();
        Body {
            pool,
            facts,
            plain: false,
            func: None,
            slots: Vec::new(alloc),
            results: Vec::new(alloc),
            defers: false,
            mentions_results: false,
            stack: Vec::new(alloc),
            temps: 0,
            declared: Vec::new(alloc),
            loops: 0,
            slices: Slices::new(alloc),
            exits: Vec::new(alloc),
            next_case: BEGINNING + 1,
            next_slot: HEAD,
            open_case: BEGINNING,
            open_lines,
            first_case,
            adapters: 0,
        }
    }

    /// The types.
    pub fn table(&self) -> &'p TypeTable
        ensures { result.now ≡ self.now.facts.«program».now.types }
    {
        self.facts.table()
    }

    // ---- functions

    /// Begins a function without variables.
    pub fn begin(&mut self, plain: bool)
        ensures { Runs self.old self.new (begun plain) }
    {
        self.plain = plain;
        self.func = None;
        self.results.truncate(0);
        self.defers = false;
        self.mentions_results = false;
        self.stack.truncate(0);
        self.temps = 0;
        self.declared.truncate(0);
        self.loops = 0;
        self.exits.truncate(0);
        self.next_case = BEGINNING + 1;
        self.next_slot = HEAD;
        self.first_case = self.pool.open_cases();
    }

    /// Begins a function of the program: its variables have slots, then those that it captured.
    pub fn begin_func(&mut self, id: FuncId, plain: bool) {
        self.begin(plain);
        self.func = Some(id);
        self.defers = self.facts.defers(id);
        if let Some(f) = self.facts.func(id) {
            self.add_homes(f.vars.items.as_slice());
            for v in f.captured.items.as_slice() {
                self.add_home(*v);
            }
            let from = self.facts.param_count(id);
            let vars = f.vars.items.as_slice();
            for i in 0..f.sig.results.as_slice().len() {
                if let Some(v) = vars.get(from.saturating_add(i)) {
                    self.add_result(v.id);
                }
            }
        }
    }

    /// The next slots are those of these variables.
    pub fn add_homes(&mut self, vars: &'p [Var]) {
        for v in vars {
            self.add_home(v.id);
        }
    }

    fn add_home(&mut self, v: VarId) {
        let slot = self.fresh_slots(1);
        self.set_slot_of(v, slot);
    }

    // A variable's slot is noted under its number.
    fn set_slot_of(&mut self, v: VarId, slot: u32) {
        let n = self.facts.var(v).number as usize;
        if n >= self.facts.var_count() {
            return;
        }
        for _ in self.slots.len()..self.facts.var_count() {
            if self.slots.push(0).is_err() {
                self.pool.failed = true;
            }
        }
        if n < self.slots.len() {
            self.slots[n] = slot;
        }
    }

    fn add_result(&mut self, v: VarId) {
        let h = self.home(v);
        if self.results.push(h).is_err() {
            self.pool.failed = true;
        }
    }

    /// The result with a number.
    pub fn result(&self, i: usize) -> Option<Home> {
        self.results.get(i).copied()
    }

    /// The home of a variable.
    pub fn home(&self, v: VarId) -> Home
        ensures { (s : State) → Tells self.now s → result ≡ home_of v s }
    {
        let fact = self.facts.var(v);
        let block = self.is_block(fact.ty);
        Home {
            ty: fact.ty,
            boxed: is_boxed(fact, block),
            slot: slot_at(self.slots.as_slice(), fact.number),
        }
    }

    /// Fresh slots, for what a range holds; the first of them.
    pub fn fresh_slots(&mut self, count: u32) -> u32
        ensures { GivesNumber self.old self.new result next_slot (with_slots count) }
    {
        let n = self.next_slot;
        self.next_slot = n.saturating_add(count);
        n
    }

    /// Fresh numbers of cases or labels; the first of them.
    pub fn fresh(&mut self, count: u32) -> u32
        ensures { GivesNumber self.old self.new result next_case (with_cases count) }
    {
        let n = self.next_case;
        self.next_case = n.saturating_add(count);
        n
    }

    /// The cases of the machine that is done.
    pub fn close_machine(&mut self) -> Cases {
        self.close_case();
        self.pool.close_cases(self.first_case)
    }

    // ---- the frame, and variables of the script

    /// The frame of a machine.
    pub fn frame(&mut self) -> ExprId
        ensures { Gives self.old self.new result (λ s. frame_tree) (λ s. s) }
    {
        self.pool.name(b"$f")
    }

    // Notes that a slot is mentioned.
    fn mention(&mut self, n: u32)
        ensures { Runs self.old self.new (mentioned n) }
    {
        if has_slot(self.results.as_slice(), n) {
            self.mentions_results = true;
        }
    }

    /// What stands in a slot.
    pub fn slot(&mut self, n: u32) -> ExprId
        ensures { Gives self.old self.new result (slot_tree n) (slot_read n) }
    {
        if self.plain {
            self.mention(n);
            self.pool.name_of(b"$v", n)
        } else {
            let f = self.frame();
            self.pool.at(f, n as u64)
        }
    }

    /// Sets a slot.
    pub fn set_slot(&mut self, n: u32, e: ExprId)
        ensures { Runs1 self.old self.new e (slot_set n) }
    {
        if self.plain {
            self.mention(n);
            self.pool.assign(Name::Numbered(b"$v", n), e);
        } else {
            let f = self.frame();
            self.pool.store_at(f, n as u64, e);
        }
    }

    /// Sets a slot that nothing has set before: a plain function declares it there.
    pub fn begin_slot(&mut self, n: u32, e: ExprId)
        ensures { Runs1 self.old self.new e (slot_begun n) }
    {
        if self.plain {
            self.pool.declare(Name::Numbered(b"$v", n), e);
        } else {
            self.set_slot(n, e);
        }
    }

    // ---- labels

    /// Where branches to a label lead.
    pub fn exits_of(&self, label: Label) -> Exits
        ensures { (s : State) → Tells self.now s → result ≡ exits_of label s }
    {
        exits_among(self.exits.as_slice(), label)
    }

    /// Branches to a label lead here from now on.
    pub fn enter_label(&mut self, label: Label, after: u32, next: u32)
        ensures { Runs self.old self.new (entered label after next) }
    {
        let exits = Exits {
            label,
            after,
            next,
            continued: false,
        };
        match self.exits.push(exits) {
            Ok(()) => {}
            Err(_) => fail(&mut self.pool),
        }
    }

    /// Notes that a branch goes on with the next turn of a label's loop.
    pub fn note_continued(&mut self, label: Label)
        ensures { Runs self.old self.new (continued label) }
    {
        for i in 0..self.exits.len() {
            note_at(&mut self.exits, i, label);
        }
    }

    /// Whether a branch went on with the next turn of the innermost label's loop.
    pub fn is_continued(&self) -> bool
        ensures { (s : State) → Tells self.now s → result ≡ is_continued s }
    {
        match self.exits.last() {
            Some(exits) => exits.continued,
            None => false,
        }
    }

    /// The innermost label is left.
    pub fn leave_label(&mut self)
        ensures { Runs self.old self.new left }
    {
        let _ = self.exits.pop();
    }
}
