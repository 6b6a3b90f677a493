//! Code that is run, with the marks of what has no call in it.

ghost use Rattle.js_code.specs.Parts.{trees_of};
ghost use Rattle.js_simple.specs.Simple.{AreMarks, IsSomeCode};

use js_code::code::Code;
use js_simple::Marks;
use js_tree::JsFunction;

/// The code of a function, or of the first value of a top-level variable.
#[derive(Drop)]
pub struct Body<'a> {
    /// The function; none outside functions.
    pub function: Option<&'a JsFunction>,
    /// How many arguments a call has.
    pub params: usize,
    /// How many slots a call has.
    pub slots: usize,
    pub code: Code<'a>,
    /// Which parts of the code stand for expressions without a call.
    pub marks: Marks,
    /// The part that stands for all of it.
    pub whole: u32,
    pub ghost sound: { ∥ IsSomeCode code ∥₁ },
    pub ghost marked: { AreMarks (trees_of code) marks },
}
