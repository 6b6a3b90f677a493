//! The parts of code: one for each node of a script, and for each place in a list of nodes.
//!
//! A part holds its own parts by their numbers, which are below its own, and never more than 24
//! bytes.

use crate::slots::place::Host;
use gj_base::Text;
use js_tree::{BinaryOp, UnaryOp};

/// A part of code with its offset `at`, where it can be told of.
///
/// A name has the place that it stands for in its variant. Lists hang on from one cell to the
/// next: `More` those of expressions, `Then` those of statements, `Case` those of cases.
#[derive(Clone, Copy)]
pub enum Part<'a> {
    Number {
        at: u32,
        n: u64,
    },
    Str {
        at: u32,
        text: &'a Text,
    },
    Bool {
        at: u32,
        b: bool,
    },
    Null {
        at: u32,
    },
    /// What the innermost `catch` caught.
    Caught {
        at: u32,
        x: &'a Text,
    },
    /// A local by its slot.
    Local {
        at: u32,
        slot: u32,
        x: &'a Text,
    },
    /// A function of the host.
    Host {
        at: u32,
        host: Host,
        x: &'a Text,
    },
    /// A function by its number.
    Function {
        at: u32,
        number: u32,
        x: &'a Text,
    },
    /// A top-level variable by its slot.
    Global {
        at: u32,
        slot: u32,
        x: &'a Text,
    },
    /// A name that nothing has.
    Nowhere {
        at: u32,
        x: &'a Text,
    },
    Unary {
        at: u32,
        op: UnaryOp,
        e: u32,
    },
    Binary {
        at: u32,
        op: BinaryOp,
        left: u32,
        right: u32,
    },
    And {
        at: u32,
        left: u32,
        right: u32,
    },
    Or {
        at: u32,
        left: u32,
        right: u32,
    },
    Conditional {
        at: u32,
        test: u32,
        left: u32,
        right: u32,
    },
    Call {
        at: u32,
        callee: u32,
        arguments: u32,
    },
    Index {
        at: u32,
        e: u32,
        i: u32,
    },
    Length {
        at: u32,
        e: u32,
    },
    Pop {
        at: u32,
        e: u32,
    },
    CharCodeAt {
        at: u32,
        e: u32,
        i: u32,
    },
    Substring {
        at: u32,
        e: u32,
        from: u32,
        to: u32,
    },
    Array {
        at: u32,
        items: u32,
    },
    Dictionary {
        at: u32,
    },
    Decimal {
        at: u32,
        e: u32,
    },
    FromCharCode {
        at: u32,
        e: u32,
    },
    /// No more expressions.
    NoMore,
    /// An expression, and those after it.
    More {
        first: u32,
        rest: u32,
    },
    /// `var`, which sets a local by its slot.
    Declare {
        at: u32,
        slot: u32,
        e: u32,
        x: &'a Text,
    },
    /// `var` of a name that is no local's.
    DeclareNowhere {
        at: u32,
        e: u32,
        x: &'a Text,
    },
    AssignLocal {
        at: u32,
        slot: u32,
        e: u32,
        x: &'a Text,
    },
    AssignGlobal {
        at: u32,
        slot: u32,
        e: u32,
        x: &'a Text,
    },
    /// An assignment to a name that no variable has.
    AssignNowhere {
        at: u32,
        e: u32,
        x: &'a Text,
    },
    Store {
        at: u32,
        e: u32,
        i: u32,
        value: u32,
    },
    Perform {
        at: u32,
        e: u32,
    },
    Push {
        at: u32,
        e: u32,
        value: u32,
    },
    Delete {
        at: u32,
        e: u32,
        key: u32,
    },
    If {
        at: u32,
        test: u32,
        body: u32,
        other: u32,
    },
    While {
        at: u32,
        test: u32,
        body: u32,
        label: &'a Option<Text>,
    },
    Forever {
        at: u32,
        body: u32,
        label: &'a Option<Text>,
    },
    Switch {
        at: u32,
        e: u32,
        cases: u32,
        label: &'a Option<Text>,
    },
    ReturnNothing {
        at: u32,
    },
    Return {
        at: u32,
        e: u32,
    },
    Throw {
        at: u32,
        e: u32,
    },
    Break {
        at: u32,
        label: &'a Option<Text>,
    },
    Continue {
        at: u32,
        label: &'a Option<Text>,
    },
    Try {
        at: u32,
        body: u32,
        handler: u32,
    },
    /// No more statements.
    Done,
    /// A statement, and those after it.
    Then {
        first: u32,
        rest: u32,
    },
    /// Nothing stands after the block of an `if`.
    NoElse,
    ElseBlock {
        body: u32,
    },
    ElseIf {
        at: u32,
        test: u32,
        body: u32,
        other: u32,
    },
    /// No more cases.
    NoCases,
    Default {
        body: u32,
    },
    /// The statements after `case n:`, and the cases after them.
    Case {
        body: u32,
        rest: u32,
        n: u64,
    },
}
