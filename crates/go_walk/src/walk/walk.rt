//! What is known where a statement begins.

ghost use Rattle.std.specs.Prelude.{◌≡◌, ◌<◌, ◌+◌, List, OnOk, IfOk, map};
ghost use Rattle.go_type.specs.Tree.{Ty};
ghost use Rattle.go_core.specs.CoreView.{var_of};
ghost use Rattle.go_operands.specs.EnvView.{table_of, env_of};
ghost use Rattle.go_typing.specs.Statements.{next_label};
ghost use Rattle.go_walk.specs.WalkView.{walk_of, walk_outside, begun, depth};

use gj_base::{NoMemory, Place};
use go_core::node::Var;
use go_core::statement::Label;
use go_operands::scopes::Env;
use go_syntax::tree::Name;
use std::alloc::Global;
use std::mem;

/// Types, scopes, numbers, and what was declared and used. The environment has entered a package.
#[derive(Drop)]
pub struct Walk {
    pub env: Env,
    /// The number of the program's next variable.
    pub next: u64,
    /// The number of the function's next label.
    pub next_label: u32,
    /// The function's variables so far.
    pub vars: Vec<Var>,
    /// The names of those that its statements declared.
    pub declared: Vec<Name>,
    /// Where the declarations stand that were used.
    pub used: Vec<Place>,
    /// How often a name was used whose declaration isn't typed.
    pub lost: u64,
}

impl Walk {
    /// Outside all functions; takes no memory.
    pub fn new(alloc: Global, env: Env) -> Walk
        ensures value { (ts : List Ty) → walk_of ts result ≡ walk_outside env }
        ensures env { result.env ≡ env }
    {
        Walk {
            env,
            next: 0,
            next_label: 0,
            vars: Vec::new(alloc),
            declared: Vec::new(alloc),
            used: Vec::new(alloc),
            lost: 0,
        }
    }

    /// Opens a function's own scope, where nothing is declared, used or numbered yet.
    pub fn begin(&mut self) -> Result<(), NoMemory>
        ensures value { OnOk result ((ts : List Ty) → walk_of ts self.new ≡ begun (walk_of ts self.old)) }
        ensures depth { OnOk result (depth self.new ≡ depth self.old + 1) }
        ensures table { table_of self.new.env ≡ table_of self.old.env }
    {
        self.env.push()?;
        self.next_label = 0;
        self.vars.clear();
        self.declared.clear();
        self.used.clear();
        self.lost = 0;
        Ok(())
    }

    /// The function's variables, which are no longer kept.
    pub fn take_vars(&mut self) -> Vec<Var>
        ensures value { result.items ≡ self.old.vars.items }
        ensures env { self.new.env ≡ self.old.env }
        ensures next { self.new.next ≡ self.old.next }
    {
        let alloc = *self.vars.allocator();
        mem::replace(&mut self.vars, Vec::new(alloc))
    }

    /// The next label's number.
    pub fn label(&mut self) -> Result<Label, NoMemory>
        ensures label { IfOk result (λ l. l.0 ≡ self.old.next_label) }
        ensures value { OnOk result ((ts : List Ty) → walk_of ts self.new ≡ next_label (walk_of ts self.old)) }
        ensures env { self.new.env ≡ self.old.env }
    {
        let label = self.next_label;
        match label.checked_add(1) {
            Some(next) => {
                self.next_label = next;
                Ok(Label(label))
            }
            None => Err(NoMemory),
        }
    }
}
