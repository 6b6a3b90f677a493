//! Sets of constants.
//!
//! Go, "Expression switches": "implementation restriction: a compiler may disallow multiple case
//! expressions evaluating to the same constant."

ghost use Rattle.std.specs.Prelude.{◌≡◌, ◌||◌, false, OnOk};
ghost use Rattle.go_const.specs.declared.constant.Const as constant;
ghost use Rattle.go_const.specs.declared.constant.Const.TheVariants as form;
ghost use Rattle.go_typing.specs.Statements.{same_constant};
ghost use Rattle.go_walk.specs.CasesHas.{has_const};

use gj_base::{NoMemory, Text};
use go_const::Const;
use indexmap::IndexSet;
use std::alloc::Global;

/// Constants: truth values, whole numbers and texts. A look-up takes the same time however many they
/// are. An untyped rune constant is the same as none: a constant of a type is none.
#[derive(Drop)]
pub struct ConstSet {
    has_true: bool,
    has_false: bool,
    numbers: IndexSet<i128>,
    texts: IndexSet<Text>,
}

impl ConstSet {
    /// No constants; takes no memory.
    pub fn new(alloc: Global) -> ConstSet
        ensures { (q : constant.Const) → has_const q result ≡ false }
    {
        ConstSet {
            has_true: false,
            has_false: false,
            numbers: IndexSet::new(alloc),
            texts: IndexSet::new(alloc),
        }
    }

    fn insert_truth(&mut self, b: bool)
        ensures value { (q : constant.Const) → has_const q self.new ≡ (same_constant q (form.Bool b) || has_const q self.old) }
    {
        if b {
            self.has_true = true;
            return;
        }
        self.has_false = true;
    }

    /// One constant more.
    pub fn insert(&mut self, k: Const) -> Result<(), NoMemory>
        ensures value { OnOk result ((q : constant.Const) → has_const q self.new ≡ (same_constant q k || has_const q self.old)) }
    {
        match k {
            Const::Bool(b) => {
                self.insert_truth(b);
                Ok(())
            }
            Const::Int(n) => {
                self.numbers.insert(n)?;
                Ok(())
            }
            Const::Rune(_) => Ok(()),
            Const::Text(text) => {
                self.texts.insert(text)?;
                Ok(())
            }
        }
    }

    /// Whether the same constant is there.
    pub fn has(&self, k: &Const) -> bool
        ensures value { result ≡ has_const k.now self.now }
    {
        match k {
            Const::Bool(b) => { if *b { self.has_true } else { self.has_false } }
            Const::Int(n) => self.numbers.contains(n),
            Const::Rune(_) => false,
            Const::Text(text) => self.texts.contains(text),
        }
    }
}
