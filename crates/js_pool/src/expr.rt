//! Expressions. ECMA-262 5.1, 11.
//!
//! Calls of a builder don't nest: give each part a name. What a method builds stands for the tree in its
//! clause, in the tables and whatever they become, as long as memory lasts.
#![tactic(auto, using(crate::proofs::Shown::shown))]

ghost use Rattle.js_tree.specs.Script.{no_exprs};
ghost use Rattle.js_tree.specs.declared.tree.UnaryOp.TheVariants.{Negate, Complement, Not};
ghost use Rattle.js_tree.specs.declared.tree.BinaryOp.TheVariants.{Add, Subtract, Multiply, Divide, Remainder, BitOr, BitAnd, BitXor, ShiftLeft, ShiftRight, ShiftRightUnsigned, Less, LessEqual, Greater, GreaterEqual, Same, Different, In};
ghost use Rattle.js_pool.specs.Tree as tree;
ghost use Rattle.js_pool.specs.Tree.{list1, list2, list3, list4, whole_tree};
ghost use Rattle.js_pool.specs.Names.{name_bytes};
ghost use Rattle.std.specs.Prelude.{◌++◌};
ghost use Rattle.std.specs.Fmt.{decimal};
ghost use Rattle.js_pool.specs.Stands.{Builds, Builds1, Builds2, Builds3, Builds4, BuildsOf, BuildsText, BuildsList, BuildsCall};

use crate::name::Name;
use crate::node::{Bytes, ExprId, Node, Span};
use crate::pool::Pool;
use js_tree::{BinaryOp, UnaryOp};

impl Pool {
    // ---- what has no parts

    /// A number.
    pub fn num(&mut self, n: u64) -> ExprId
        ensures { Builds self.old self.new result (tree.number n) }
    {
        self.add(Node::Number(n))
    }

    /// A whole number; a negative one is the opposite of a number.
    pub fn whole(&mut self, n: i64) -> ExprId
        ensures { Builds self.old self.new result (whole_tree n) }
    {
        let size = self.num(n.unsigned_abs());
        if n < 0 {
            return self.opposite(size);
        }
        size
    }

    /// A truth value.
    pub fn truth(&mut self, b: bool) -> ExprId
        ensures { Builds self.old self.new result (tree.boolean b) }
    {
        self.add(Node::Bool(b))
    }

    /// `null`
    pub fn null(&mut self) -> ExprId
        ensures { Builds self.old self.new result tree.null }
    {
        self.add(Node::Null)
    }

    /// `Object.create(null)`
    pub fn dictionary(&mut self) -> ExprId
        ensures { Builds self.old self.new result tree.dictionary }
    {
        self.add(Node::Dictionary)
    }

    /// A string.
    pub fn text(&mut self, word: &[u8]) -> ExprId
        ensures { Builds self.old self.new result (tree.string word.now) }
    {
        let x = self.word(word);
        self.add(Node::Str(x))
    }

    /// A string that was made piece by piece.
    pub fn text_of(&mut self, bytes: Bytes) -> ExprId
        ensures { BuildsText self.old self.new result bytes tree.string }
    {
        self.add(Node::Str(bytes))
    }

    /// A name.
    pub fn named(&mut self, x: Name) -> ExprId
        ensures { Builds self.old self.new result (tree.name (name_bytes x)) }
    {
        self.add(Node::Name(x))
    }

    /// A name that is a word.
    pub fn name(&mut self, word: &'static [u8]) -> ExprId
        ensures { Builds self.old self.new result (tree.name word.now) }
    {
        self.named(Name::Word(word))
    }

    /// A name that is a word with a number after it.
    pub fn name_of(&mut self, word: &'static [u8], n: u32) -> ExprId
        ensures { Builds self.old self.new result (tree.name (word.now ++ decimal n)) }
    {
        self.named(Name::Numbered(word, n))
    }

    // ---- operators

    /// An operator before an operand.
    pub fn unary(&mut self, op: UnaryOp, a: ExprId) -> ExprId
        ensures { Builds1 self.old self.new result a (tree.unary op) }
    {
        self.add(Node::Unary(op, a))
    }

    /// `-a`
    pub fn opposite(&mut self, a: ExprId) -> ExprId
        ensures { Builds1 self.old self.new result a (tree.unary Negate) }
    {
        self.unary(UnaryOp::Negate, a)
    }

    /// `~a`
    pub fn complement(&mut self, a: ExprId) -> ExprId
        ensures { Builds1 self.old self.new result a (tree.unary Complement) }
    {
        self.unary(UnaryOp::Complement, a)
    }

    /// `!a`
    pub fn not(&mut self, a: ExprId) -> ExprId
        ensures { Builds1 self.old self.new result a (tree.unary Not) }
    {
        self.unary(UnaryOp::Not, a)
    }

    /// An operator between operands.
    pub fn two(&mut self, op: BinaryOp, a: ExprId, b: ExprId) -> ExprId
        ensures { Builds2 self.old self.new result a b (tree.binary op) }
    {
        self.add(Node::Binary(op, a, b))
    }

    /// `a + b`
    pub fn plus(&mut self, a: ExprId, b: ExprId) -> ExprId
        ensures { Builds2 self.old self.new result a b (tree.binary Add) }
    {
        self.two(BinaryOp::Add, a, b)
    }

    /// `a - b`
    pub fn sub(&mut self, a: ExprId, b: ExprId) -> ExprId
        ensures { Builds2 self.old self.new result a b (tree.binary Subtract) }
    {
        self.two(BinaryOp::Subtract, a, b)
    }

    /// `a * b`
    pub fn mul(&mut self, a: ExprId, b: ExprId) -> ExprId
        ensures { Builds2 self.old self.new result a b (tree.binary Multiply) }
    {
        self.two(BinaryOp::Multiply, a, b)
    }

    /// `a / b`
    pub fn div(&mut self, a: ExprId, b: ExprId) -> ExprId
        ensures { Builds2 self.old self.new result a b (tree.binary Divide) }
    {
        self.two(BinaryOp::Divide, a, b)
    }

    /// `a % b`
    pub fn rem(&mut self, a: ExprId, b: ExprId) -> ExprId
        ensures { Builds2 self.old self.new result a b (tree.binary Remainder) }
    {
        self.two(BinaryOp::Remainder, a, b)
    }

    /// `a | b`
    pub fn bit_or(&mut self, a: ExprId, b: ExprId) -> ExprId
        ensures { Builds2 self.old self.new result a b (tree.binary BitOr) }
    {
        self.two(BinaryOp::BitOr, a, b)
    }

    /// `a & b`
    pub fn bit_and(&mut self, a: ExprId, b: ExprId) -> ExprId
        ensures { Builds2 self.old self.new result a b (tree.binary BitAnd) }
    {
        self.two(BinaryOp::BitAnd, a, b)
    }

    /// `a ^ b`
    pub fn bit_xor(&mut self, a: ExprId, b: ExprId) -> ExprId
        ensures { Builds2 self.old self.new result a b (tree.binary BitXor) }
    {
        self.two(BinaryOp::BitXor, a, b)
    }

    /// `a << b`
    pub fn shift_left(&mut self, a: ExprId, b: ExprId) -> ExprId
        ensures { Builds2 self.old self.new result a b (tree.binary ShiftLeft) }
    {
        self.two(BinaryOp::ShiftLeft, a, b)
    }

    /// `a >> b`
    pub fn shift_right(&mut self, a: ExprId, b: ExprId) -> ExprId
        ensures { Builds2 self.old self.new result a b (tree.binary ShiftRight) }
    {
        self.two(BinaryOp::ShiftRight, a, b)
    }

    /// `a >>> b`
    pub fn shift_right_unsigned(&mut self, a: ExprId, b: ExprId) -> ExprId
        ensures { Builds2 self.old self.new result a b (tree.binary ShiftRightUnsigned) }
    {
        self.two(BinaryOp::ShiftRightUnsigned, a, b)
    }

    /// `a < b`
    pub fn less(&mut self, a: ExprId, b: ExprId) -> ExprId
        ensures { Builds2 self.old self.new result a b (tree.binary Less) }
    {
        self.two(BinaryOp::Less, a, b)
    }

    /// `a <= b`
    pub fn less_equal(&mut self, a: ExprId, b: ExprId) -> ExprId
        ensures { Builds2 self.old self.new result a b (tree.binary LessEqual) }
    {
        self.two(BinaryOp::LessEqual, a, b)
    }

    /// `a > b`
    pub fn greater(&mut self, a: ExprId, b: ExprId) -> ExprId
        ensures { Builds2 self.old self.new result a b (tree.binary Greater) }
    {
        self.two(BinaryOp::Greater, a, b)
    }

    /// `a >= b`
    pub fn greater_equal(&mut self, a: ExprId, b: ExprId) -> ExprId
        ensures { Builds2 self.old self.new result a b (tree.binary GreaterEqual) }
    {
        self.two(BinaryOp::GreaterEqual, a, b)
    }

    /// `a === b`
    pub fn same(&mut self, a: ExprId, b: ExprId) -> ExprId
        ensures { Builds2 self.old self.new result a b (tree.binary Same) }
    {
        self.two(BinaryOp::Same, a, b)
    }

    /// `a !== b`
    pub fn different(&mut self, a: ExprId, b: ExprId) -> ExprId
        ensures { Builds2 self.old self.new result a b (tree.binary Different) }
    {
        self.two(BinaryOp::Different, a, b)
    }

    /// `a in b`
    pub fn is_key(&mut self, a: ExprId, b: ExprId) -> ExprId
        ensures { Builds2 self.old self.new result a b (tree.binary In) }
    {
        self.two(BinaryOp::In, a, b)
    }

    /// `a && b`
    pub fn both(&mut self, a: ExprId, b: ExprId) -> ExprId
        ensures { Builds2 self.old self.new result a b tree.both }
    {
        self.add(Node::And(a, b))
    }

    /// `a || b`
    pub fn either(&mut self, a: ExprId, b: ExprId) -> ExprId
        ensures { Builds2 self.old self.new result a b tree.either }
    {
        self.add(Node::Or(a, b))
    }

    /// `a[b]`
    pub fn index(&mut self, a: ExprId, b: ExprId) -> ExprId
        ensures { Builds2 self.old self.new result a b tree.index }
    {
        self.add(Node::Index(a, b))
    }

    /// `a.charCodeAt(b)`
    pub fn char_code_at(&mut self, a: ExprId, b: ExprId) -> ExprId
        ensures { Builds2 self.old self.new result a b tree.char_code_at }
    {
        self.add(Node::CharCodeAt(a, b))
    }

    /// `a ? b : c`
    pub fn choice(&mut self, a: ExprId, b: ExprId, c: ExprId) -> ExprId
        ensures { Builds3 self.old self.new result a b c tree.choice }
    {
        self.add(Node::Conditional(a, b, c))
    }

    /// `a.substring(b, c)`
    pub fn substring(&mut self, a: ExprId, b: ExprId, c: ExprId) -> ExprId
        ensures { Builds3 self.old self.new result a b c tree.substring }
    {
        self.add(Node::Substring(a, b, c))
    }

    /// `a.length`
    pub fn length(&mut self, a: ExprId) -> ExprId
        ensures { Builds1 self.old self.new result a tree.length_of }
    {
        self.add(Node::Length(a))
    }

    /// `a.pop()`
    pub fn pop(&mut self, a: ExprId) -> ExprId
        ensures { Builds1 self.old self.new result a tree.pop }
    {
        self.add(Node::Pop(a))
    }

    /// `String(a)`
    pub fn decimal(&mut self, a: ExprId) -> ExprId
        ensures { Builds1 self.old self.new result a tree.decimal_of }
    {
        self.add(Node::Decimal(a))
    }

    /// `String.fromCharCode(a)`
    pub fn from_char_code(&mut self, a: ExprId) -> ExprId
        ensures { Builds1 self.old self.new result a tree.from_char_code }
    {
        self.add(Node::FromCharCode(a))
    }

    /// The element with this number.
    pub fn at(&mut self, a: ExprId, i: u64) -> ExprId
        ensures { Builds1 self.old self.new result a (λ s. tree.index s (tree.number i)) }
    {
        let i = self.num(i);
        self.index(a, i)
    }

    // ---- lists

    /// An array of these elements.
    pub fn array(&mut self, items: Span) -> ExprId
        ensures { BuildsList self.old self.new result items tree.array }
    {
        self.add(Node::Array(items))
    }

    /// An array of these elements.
    pub fn array_of(&mut self, items: &[ExprId]) -> ExprId
        ensures { BuildsOf self.old self.new result items.now tree.array }
    {
        let items = self.list(items);
        self.array(items)
    }

    /// `[]`
    pub fn empty(&mut self) -> ExprId
        ensures { Builds self.old self.new result (tree.array no_exprs) }
    {
        let items: [ExprId; 0] = [];
        self.array_of(&items)
    }

    /// `[a]`
    pub fn single(&mut self, a: ExprId) -> ExprId
        ensures { Builds1 self.old self.new result a (λ s. tree.array (list1 s)) }
    {
        self.array_of(&[a])
    }

    /// `[a, b]`
    pub fn pair(&mut self, a: ExprId, b: ExprId) -> ExprId
        ensures { Builds2 self.old self.new result a b (λ s t. tree.array (list2 s t)) }
    {
        self.array_of(&[a, b])
    }

    /// A call of what an expression gives.
    pub fn call(&mut self, callee: ExprId, arguments: Span) -> ExprId
        ensures { BuildsCall self.old self.new result callee arguments tree.call }
    {
        self.add(Node::Call(callee, arguments))
    }

    /// A call of a function by its name.
    pub fn call_of(&mut self, x: Name, arguments: &[ExprId]) -> ExprId
        ensures { BuildsOf self.old self.new result arguments.now (tree.call (tree.name (name_bytes x))) }
    {
        let callee = self.named(x);
        let arguments = self.list(arguments);
        self.call(callee, arguments)
    }

    /// `x()`
    pub fn call0(&mut self, x: &'static [u8]) -> ExprId
        ensures { Builds self.old self.new result (tree.call (tree.name x.now) no_exprs) }
    {
        let arguments: [ExprId; 0] = [];
        self.call_of(Name::Word(x), &arguments)
    }

    /// `x(a)`
    pub fn call1(&mut self, x: &'static [u8], a: ExprId) -> ExprId
        ensures { Builds1 self.old self.new result a (λ s. tree.call (tree.name x.now) (list1 s)) }
    {
        self.call_of(Name::Word(x), &[a])
    }

    /// `x(a, b)`
    pub fn call2(&mut self, x: &'static [u8], a: ExprId, b: ExprId) -> ExprId
        ensures { Builds2 self.old self.new result a b (λ s t. tree.call (tree.name x.now) (list2 s t)) }
    {
        self.call_of(Name::Word(x), &[a, b])
    }

    /// `x(a, b, c)`
    pub fn call3(&mut self, x: &'static [u8], a: ExprId, b: ExprId, c: ExprId) -> ExprId
        ensures { Builds3 self.old self.new result a b c (λ s t u. tree.call (tree.name x.now) (list3 s t u)) }
    {
        self.call_of(Name::Word(x), &[a, b, c])
    }

    /// `x(a, b, c, d)`
    pub fn call4(&mut self, x: &'static [u8], a: ExprId, b: ExprId, c: ExprId, d: ExprId) -> ExprId
        ensures { Builds4 self.old self.new result a b c d (λ s t u v. tree.call (tree.name x.now) (list4 s t u v)) }
    {
        self.call_of(Name::Word(x), &[a, b, c, d])
    }
}
