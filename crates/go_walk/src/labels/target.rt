//! What a `break` or a `continue` may leave.
//!
//! Go, "Break statements", "Continue statements".

ghost use Rattle.std.specs.Prelude.{◌≡◌, ◌∷◌, ◌||◌, [], Some, None, OnOk, OnErr, not, option_map, if◌then◌else◌};
ghost use Rattle.go_typing.specs.Statements.{innermost, is_named, target_named};
ghost use Rattle.go_walk.specs.Left.{label_of, targets_of, without_first};

use gj_base::{NoMemory, Text};
use go_core::statement::Label;
use std::alloc::Global;

/// A loop or a switch: its label's number, its label's name if it has one, and whether it is a loop.
#[derive(Drop)]
pub struct Target {
    pub label: Label,
    pub name: Option<Text>,
    pub is_loop: bool,
}

/// Loops and switches within one another, the innermost last. A look-up goes through them from the
/// inside out: they are no more than nested statements may be.
#[derive(Drop)]
pub struct Targets {
    items: Vec<Target>,
}

fn is_named(x: &Text, name: &Option<Text>) -> bool
    ensures value { result ≡ is_named x.now name.now }
{
    match name {
        Some(y) => x.as_bytes() == y.as_bytes(),
        None => false,
    }
}

// Whether it may be left so: where loops alone are looked for, it must be one.
fn fits(target: &Target, loops: bool) -> bool
    ensures value { result ≡ (target.now.is_loop || not loops) }
{
    target.is_loop || !loops
}

fn left(target: &Target, loops: bool) -> Option<Label>
    ensures value { option_map label_of result ≡ (if target.now.is_loop || not loops then Some target.now.label.0 else None) }
{
    if fits(target, loops) {
        return Some(target.label);
    }
    None
}

impl Targets {
    /// None; takes no memory.
    pub fn new(alloc: Global) -> Targets
        ensures { targets_of result ≡ [] }
    {
        Targets {
            items: Vec::new(alloc),
        }
    }

    /// One more, inside the others; a refusal leaves them as they were.
    pub fn push(&mut self, target: Target) -> Result<(), NoMemory>
        ensures value { OnOk result (targets_of self.new ≡ record { label = target.label.0; name = target.name; is_loop = target.is_loop } ∷ targets_of self.old) }
        ensures same { OnErr result (targets_of self.new ≡ targets_of self.old) }
    {
        self.items.push(target)?;
        Ok(())
    }

    /// Takes the innermost one away, if there is one.
    pub fn pop(&mut self)
        ensures value { targets_of self.new ≡ without_first (targets_of self.old) }
    {
        self.items.pop();
    }

    /// The innermost one, or the innermost loop.
    pub fn innermost(&self, loops: bool) -> Option<Label>
        ensures value { option_map label_of result ≡ innermost loops (targets_of self.now) }
    {
        let mut i = self.items.len();
        while i > 0 {
            i -= 1;
            let target = &self.items[i];
            if fits(target, loops) {
                return Some(target.label);
            }
        }
        None
    }

    /// The one of this name; where loops alone are looked for, it must be one.
    pub fn named(&self, loops: bool, x: &Text) -> Option<Label>
        ensures value { option_map label_of result ≡ target_named loops x.now (targets_of self.now) }
    {
        let mut i = self.items.len();
        while i > 0 {
            i -= 1;
            let target = &self.items[i];
            if is_named(x, &target.name) {
                return left(target, loops);
            }
        }
        None
    }
}
