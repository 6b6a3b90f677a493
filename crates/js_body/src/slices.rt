//! Slices whose parts stand in slots. What a slice is never changes: only variables are set anew. So a variable of a
//! slice type that isn't boxed is opened before the outermost loop around that doesn't set it: the array of its
//! elements, the index of the first one and their number stand in three slots while the loop runs.

ghost use Rattle.std.specs.Prelude.{◌≡◌, [], false};
ghost use Rattle.js_body.specs.State.{looped, unlooped};
ghost use Rattle.js_body.specs.Tells.{Runs, RunsClosed};
ghost use Rattle.js_pool.specs.Stands.{Grows};

use crate::body::Body;
use crate::stack::fail;
use go_core::node::VarId;
use js_pool::ExprId;
use std::alloc::Global;

/// What is known of the variables of slices, by their numbers.
#[derive(Drop)]
pub struct Slices {
    /// How many of the loops around set it, those from the outermost one on.
    set_in: Vec<u32>,
    /// The first slot of its parts; none where that is 0.
    parts: Vec<u32>,
    /// What the loops around set: each time the variable's number and the number of the loop.
    sets: Vec<Noted>,
    /// What is opened before the loops around.
    opened: Vec<Noted>,
}

/// A variable by its number and its slot, and the loop that sets it or before which it is opened.
#[derive(Clone, Copy)]
struct Noted {
    number: u32,
    slot: u32,
    of: u32,
}

/// The slots of the parts of a slice.
#[derive(Clone, Copy)]
pub struct Parts {
    pub elements: u32,
    pub first: u32,
    pub count: u32,
}

/// The parts of a slice in three slots, of which this is the first.
pub fn parts_at(slot: u32) -> Parts {
    Parts {
        elements: slot,
        first: slot.saturating_add(1),
        count: slot.saturating_add(2),
    }
}

fn number_at(numbers: &[u32], n: u32) -> u32 {
    match numbers.get(n as usize) {
        Some(k) => *k,
        None => 0,
    }
}

fn set_number(numbers: &mut Vec<u32>, n: u32, k: u32) {
    if (n as usize) < numbers.len() {
        numbers[n as usize] = k;
    }
}

fn has_some(noted: &[Noted]) -> bool
    ensures { noted.now ≡ [] → result ≡ false }
{
    !noted.is_empty()
}

fn one_more(numbers: &mut Vec<u32>) -> bool {
    numbers.push(0).is_ok()
}

impl Slices {
    /// Nothing is known.
    pub fn new(alloc: Global) -> Slices
        ensures { result.opened.items ≡ [] }
    {
        Slices {
            set_in: Vec::new(alloc),
            parts: Vec::new(alloc),
            sets: Vec::new(alloc),
            opened: Vec::new(alloc),
        }
    }
}

impl<'p> Body<'p> {
    // The tables have a place for each variable.
    fn make_room(&mut self)
        ensures { Runs self.old self.new (λ s. s) }
    {
        'places: for _ in self.slices.parts.len()..self.facts.var_count() {
            self.add_place();
        }
    }

    fn add_place(&mut self)
        ensures { Runs self.old self.new (λ s. s) }
    {
        if !self.has_place() {
            fail(&mut self.pool);
        }
    }

    // One more variable has a place; false where memory runs out.
    fn has_place(&mut self) -> bool
        ensures { Runs self.old self.new (λ s. s) }
    {
        one_more(&mut self.slices.parts) && one_more(&mut self.slices.set_in)
    }

    /// A loop of a plain function begins.
    pub fn enter_loop(&mut self)
        ensures { Runs self.old self.new looped }
    {
        self.make_room();
        self.loops = self.loops.saturating_add(1);
    }

    /// The innermost loop sets a variable.
    pub fn note_set(&mut self, v: VarId)
        ensures { Runs self.old self.new (λ s. s) }
    {
        let number = self.facts.var(v).number;
        let of = self.loops;
        if number_at(self.slices.set_in.as_slice(), number) >= of {
            return;
        }
        set_number(&mut self.slices.set_in, number, of);
        self.note(Noted {
            number,
            slot: 0,
            of,
        });
    }

    fn note(&mut self, noted: Noted)
        ensures { Runs self.old self.new (λ s. s) }
    {
        match self.slices.sets.push(noted) {
            Ok(()) => {}
            Err(_) => fail(&mut self.pool),
        }
    }

    /// A variable of an expression is never opened.
    pub fn keep_closed(&mut self, v: VarId)
        ensures { Runs self.old self.new (λ s. s) }
    {
        self.make_room();
        let number = self.facts.var(v).number;
        set_number(&mut self.slices.set_in, number, 4294967295);
    }

    /// The parts of a variable of a slice type, where it is opened before a loop around.
    pub fn opened(&mut self, v: VarId) -> Option<Parts>
        ensures { Grows self.old.pool self.new.pool }
    {
        let h = self.home(v);
        let number = self.facts.var(v).number;
        let set_in = number_at(self.slices.set_in.as_slice(), number);
        if !self.plain || h.boxed || set_in >= self.loops {
            return None;
        }
        let known = number_at(self.slices.parts.as_slice(), number);
        if known != 0 {
            return Some(parts_at(known));
        }
        let slot = self.fresh_slots(3);
        set_number(&mut self.slices.parts, number, slot);
        self.note_opened(Noted {
            number,
            slot: h.slot,
            of: set_in.saturating_add(1),
        });
        Some(parts_at(slot))
    }

    fn note_opened(&mut self, noted: Noted)
        ensures { Grows self.old.pool self.new.pool }
    {
        match self.slices.opened.push(noted) {
            Ok(()) => {}
            Err(_) => fail(&mut self.pool),
        }
    }

    /// The innermost loop has ended: what is opened before it is opened here.
    pub fn leave_loop(&mut self)
        ensures { RunsClosed self.old self.new unlooped }
    {
        self.forget_sets();
        self.open_slices();
        self.loops = self.loops.saturating_sub(1);
    }

    // What the innermost loop sets is set in the loop around it.
    fn forget_sets(&mut self)
        ensures { Runs self.old self.new (λ s. s) }
    {
        'sets: for _ in 0..self.slices.sets.len() {
            match self.slices.sets.as_slice() {
                [.., last] if last.of == self.loops => {
                    let number = last.number;
                    set_number(&mut self.slices.set_in, number, last.of.saturating_sub(1));
                }
                _ => break,
            }
            let _ = self.slices.sets.pop();
        }
    }

    fn open_slices(&mut self)
        ensures { RunsClosed self.old self.new (λ s. s) }
    {
        if has_some(self.slices.opened.as_slice()) {
            self.open_those();
        }
    }

    fn open_those(&mut self)
        ensures { Grows self.old.pool self.new.pool }
    {
        let many = self.slices.opened.len();
        let mut kept: usize = 0;
        for i in 0..many {
            if i < self.slices.opened.len() && kept < self.slices.opened.len() {
                let noted = self.slices.opened[i];
                if noted.of == self.loops {
                    self.open_noted(noted);
                } else {
                    self.slices.opened[kept] = noted;
                    kept = kept.saturating_add(1);
                }
            }
        }
        self.slices.opened.truncate(kept);
    }

    fn open_noted(&mut self, noted: Noted)
        ensures { Grows self.old.pool self.new.pool }
    {
        let slot = number_at(self.slices.parts.as_slice(), noted.number);
        set_number(&mut self.slices.parts, noted.number, 0);
        let s = self.slot(noted.slot);
        self.open_slice(s, parts_at(slot));
    }

    /// The parts of a slice stand in slots from now on; those of nil are those of an empty one.
    pub fn open_slice(&mut self, s: ExprId, to: Parts)
        ensures { Grows self.old.pool self.new.pool }
    {
        let null = self.pool.null();
        let none = self.pool.num(0);
        let nil = self.pool.same(s, null);
        let empty = self.pool.array_of(&[null, none, none]);
        let e = self.pool.choice(nil, empty, s);
        let t = self.scratch(e);
        let e = self.pool.at(t, 0);
        self.begin_slot(to.elements, e);
        let e = self.pool.at(t, 1);
        self.begin_slot(to.first, e);
        let e = self.pool.at(t, 2);
        self.begin_slot(to.count, e);
    }
}
