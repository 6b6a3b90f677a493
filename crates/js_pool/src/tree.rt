//! The trees of what the tables hold: the only place where boxes are made. Each is the one that its node stands for.

ghost use Rattle.std.specs.Prelude.{◌≡◌, ◌≤◌, IfOk, MatchOption, false, List, ◌∷◌, [], length, option_map, Some};
ghost use Rattle.std.specs.List.{slice_get};
ghost use Rattle.js_tree.specs.Script as script;
ghost use Rattle.js_tree.specs.Script.{no_cases};
ghost use Rattle.js_tree.specs.View.{expr_view, exprs_view, stmt_view, stmts_view, else_view, cases_view, case_view, function_view, item_view};
ghost use Rattle.js_pool.specs.Names.{name_bytes};
ghost use Rattle.js_pool.specs.Stands.{HeldAt, Stands, Shows, StandIn};
ghost use Rattle.js_pool.specs.Says.{Says, SaysIn, SaysElse, SaysSwitch, SaysCase, NamesAre, Tops};
ghost use Rattle.js_pool.specs.StmtTree.{is_one_if};
ghost use Rattle.js_pool.specs.declared.node.Node.TheVariants as node;
ghost use Rattle.js_pool.specs.declared.node.Stmt.{Stmt};
ghost use Rattle.js_pool.specs.declared.node.Stmt.TheVariants as line;
ghost use Rattle.js_pool.specs.declared.node.Else.TheVariants as tail;
ghost use Rattle.js_pool.specs.declared.node.Item.TheVariants as item;

use crate::made;
use crate::name::Name;
use crate::node::{Block, Bytes, Case, Cases, Else, ExprId, Item, Names, Node, Span, Stmt};
use crate::pool::Pool;
use gj_base::{NoMemory, Text};
use js_tree::{JsCase, JsCases, JsElse, JsExpr, JsExprs, JsFunction, JsItem, JsStmt, JsStmts};
use std::alloc::{AllocError, AllocFailed};

/// Why no tree was made.
#[derive(Clone, Copy, Debug, PartialEq, Eq)]
pub enum Unmade {
    NoMemory,
    /// A mistake of the compiler: parts of parts lie deeper than `DEPTH`, a part isn't in the tables, or a
    /// text of the run-time library is no script.
    Internal,
}

/// How deep expressions lie in an expression at most, and blocks in a block: a script whose text the
/// subset has nests no deeper than 1000.
pub const DEPTH: u32 = 1500;

impl From<NoMemory> for Unmade {
    fn from(_e: NoMemory) -> Unmade {
        Unmade::NoMemory
    }
}

impl From<AllocError> for Unmade {
    fn from(_e: AllocError) -> Unmade {
        Unmade::NoMemory
    }
}

impl<T: Drop> From<AllocFailed<T>> for Unmade {
    fn from(_e: AllocFailed<T>) -> Unmade {
        Unmade::NoMemory
    }
}

type Made = Result<JsExpr, Unmade>;

type Boxed = Result<Box<JsExpr>, Unmade>;

type Said = Result<JsStmt, Unmade>;

type Tail = Result<JsElse, Unmade>;

// The elements of a table from a number on, so many.
fn held<T>(table: &[T], from: u32, many: u32) -> Result<&[T], Unmade>
    ensures { IfOk result (λ r. HeldAt table.now «from» many r.now) }
{
    let begin = from as usize;
    let end = begin + many as usize;
    if end <= table.len() {
        return Ok(&table[begin..end]);
    }
    Err(Unmade::Internal)
}

// The element with a number.
fn nth<T: Copy>(items: &[T], i: usize) -> Result<T, Unmade>
    ensures { IfOk result (λ x. slice_get items.now i ≡ Some x) }
{
    match items.get(i) {
        Some(x) => Ok(*x),
        None => Err(Unmade::Internal),
    }
}

// The element with a number, if there are that many.
fn taken<T: Copy>(items: &[T], i: usize) -> Option<T>
    ensures { MatchOption result (length items.now ≤ i) (λ x. slice_get items.now i ≡ Some x) }
{
    match items.get(i) {
        Some(x) => Some(*x),
        None => None,
    }
}

impl Pool {
    fn name_text(&self, x: Name) -> Result<Text, Unmade>
        ensures { IfOk result (λ t. t ≡ name_bytes x) }
    {
        Ok(x.text(self.alloc)?)
    }

    fn label(&self, x: Option<Name>) -> Result<Option<Text>, Unmade>
        ensures { IfOk result (λ t. t ≡ option_map name_bytes x) }
    {
        match x {
            Some(x) => {
                let x = self.name_text(x)?;
                Ok(Some(x))
            }
            None => Ok(None),
        }
    }

    // ---- expressions

    fn expr_tree(&self, id: ExprId) -> Made
        ensures { IfOk result (λ e. Stands self.now id (expr_view e)) }
    {
        self.expr_within(id, DEPTH)
    }

    fn node_of(&self, id: ExprId) -> Result<Node, Unmade>
        ensures { IfOk result (λ x. slice_get self.now.nodes.items id.0 ≡ Some x) }
    {
        nth(self.nodes.as_slice(), id.0 as usize)
    }

    // The tree of an expression, no deeper than this.
    #[cycle(expr)]
    fn expr_within(&self, id: ExprId, depth: u32) -> Made
        ensures { IfOk result (λ e. Stands self.now id (expr_view e)) }
    {
        if depth == 0 {
            return Err(Unmade::Internal);
        }
        let node = self.node_of(id)?;
        self.node_tree(node, depth - 1)
    }

    #[cycle(expr)]
    fn boxed(&self, id: ExprId, depth: u32) -> Boxed
        ensures { IfOk result (λ b. Stands self.now id (expr_view b.value)) }
    {
        let e = self.expr_within(id, depth)?;
        Ok(Box::new(self.alloc, e)?)
    }

    #[cycle(expr)]
    fn expr_trees(&self, span: Span, depth: u32) -> Result<JsExprs, Unmade>
        ensures { IfOk result (λ es. StandIn self.now span (exprs_view es)) }
    {
        let ids = held(self.lists.as_slice(), span.from, span.many)?;
        let mut items = Vec::new(self.alloc);
        for i in 0..ids.len() {
            let id = nth(ids, i)?;
            let e = self.expr_within(id, depth)?;
            items.push(e)?;
        }
        Ok(made::exprs(items))
    }

    #[cycle(expr)]
    fn node_tree(&self, node: Node, depth: u32) -> Made
        ensures { IfOk result (λ e. Shows self.now node (expr_view e)) }
    {
        match node {
            Node::Unary(op, a) => {
                let a = self.boxed(a, depth)?;
                Ok(made::unary(op, a))
            }
            Node::Binary(op, a, b) => {
                let a = self.boxed(a, depth)?;
                let b = self.boxed(b, depth)?;
                Ok(made::binary(op, a, b))
            }
            Node::And(a, b) => {
                let a = self.boxed(a, depth)?;
                let b = self.boxed(b, depth)?;
                Ok(made::both(a, b))
            }
            Node::Or(a, b) => {
                let a = self.boxed(a, depth)?;
                let b = self.boxed(b, depth)?;
                Ok(made::either(a, b))
            }
            Node::Conditional(a, b, c) => {
                let a = self.boxed(a, depth)?;
                let b = self.boxed(b, depth)?;
                let c = self.boxed(c, depth)?;
                Ok(made::choice(a, b, c))
            }
            Node::Call(callee, arguments) => {
                let callee = self.boxed(callee, depth)?;
                let arguments = self.expr_trees(arguments, depth)?;
                Ok(made::call(callee, arguments))
            }
            Node::Array(items) => {
                let items = self.expr_trees(items, depth)?;
                Ok(made::array(items))
            }
            _ => self.member_tree(node, depth),
        }
    }

    // Indices, properties, and methods of arrays, strings and `String`.
    #[cycle(expr)]
    fn member_tree(&self, node: Node, depth: u32) -> Made
        ensures { IfOk result (λ e. Shows self.now node (expr_view e)) }
    {
        match node {
            Node::Index(a, i) => {
                let a = self.boxed(a, depth)?;
                let i = self.boxed(i, depth)?;
                Ok(made::index(a, i))
            }
            Node::Length(a) => {
                let a = self.boxed(a, depth)?;
                Ok(made::length_of(a))
            }
            Node::Pop(a) => {
                let a = self.boxed(a, depth)?;
                Ok(made::pop(a))
            }
            Node::CharCodeAt(a, i) => {
                let a = self.boxed(a, depth)?;
                let i = self.boxed(i, depth)?;
                Ok(made::char_code_at(a, i))
            }
            Node::Substring(a, from, to) => {
                let a = self.boxed(a, depth)?;
                let from = self.boxed(from, depth)?;
                let to = self.boxed(to, depth)?;
                Ok(made::substring(a, from, to))
            }
            Node::Decimal(a) => {
                let a = self.boxed(a, depth)?;
                Ok(made::decimal_of(a))
            }
            Node::FromCharCode(a) => {
                let a = self.boxed(a, depth)?;
                Ok(made::from_char_code(a))
            }
            _ => self.atom(node),
        }
    }

    // What has no parts.
    fn atom(&self, node: Node) -> Made
        ensures { IfOk result (λ e. Shows self.now node (expr_view e)) }
    {
        match node {
            Node::Number(n) => Ok(made::number(n)),
            Node::Str(bytes) => self.string(bytes),
            Node::Bool(b) => Ok(made::boolean(b)),
            Node::Null => Ok(made::null()),
            Node::Name(x) => {
                let x = self.name_text(x)?;
                Ok(made::name(x))
            }
            Node::Dictionary => Ok(made::dictionary()),
            _ => Err(Unmade::Internal),
        }
    }

    fn string(&self, bytes: Bytes) -> Made
        ensures { IfOk result (λ e. Shows self.now (node.Str bytes) (expr_view e)) }
    {
        let part = held(self.bytes.as_slice(), bytes.from, bytes.many)?;
        let text = Text::from_slice(self.alloc, part)?;
        Ok(made::string(text))
    }

    // ---- statements

    // The trees of a block's statements, with blocks no deeper than this.
    #[cycle(stmt)]
    fn stmt_trees(&self, block: Block, depth: u32) -> Result<JsStmts, Unmade>
        ensures { IfOk result (λ ss. SaysIn self.now block (stmts_view ss)) }
    {
        if depth == 0 {
            return Err(Unmade::Internal);
        }
        let lines = held(self.stmts.as_slice(), block.from, block.many)?;
        let mut items = Vec::new(self.alloc);
        for i in 0..lines.len() {
            let s = nth(lines, i)?;
            let tree = self.stmt_tree(s, depth - 1)?;
            items.push(tree)?;
        }
        Ok(made::stmts(items))
    }

    // A statement with blocks no deeper than this.
    #[cycle(stmt)]
    fn stmt_tree(&self, s: Stmt, depth: u32) -> Said
        ensures { IfOk result (λ r. Says self.now s (stmt_view r)) }
    {
        match s {
            Stmt::If(test, body, other) => {
                let test = self.expr_tree(test)?;
                let body = self.stmt_trees(body, depth)?;
                let other = self.tail(other, depth)?;
                Ok(made::when(test, body, other))
            }
            Stmt::While(label, test, body) => {
                let body = self.stmt_trees(body, depth)?;
                let test = self.expr_tree(test)?;
                let label = self.label(label)?;
                Ok(made::turns(label, test, body))
            }
            Stmt::Forever(label, body) => {
                let body = self.stmt_trees(body, depth)?;
                let label = self.label(label)?;
                Ok(made::forever(label, body))
            }
            Stmt::Switch(label, tag, cases, other) => {
                let cases = self.case_trees(cases, other, depth)?;
                let tag = self.expr_tree(tag)?;
                let label = self.label(label)?;
                Ok(made::switch(label, tag, cases))
            }
            Stmt::Try(body, caught) => {
                let body = self.stmt_trees(body, depth)?;
                let caught = self.stmt_trees(caught, depth)?;
                Ok(made::attempt(body, caught))
            }
            _ => self.simple(s),
        }
    }

    #[cycle(stmt)]
    fn tail(&self, other: Else, depth: u32) -> Tail
        ensures { IfOk result (λ o. SaysElse self.now other (else_view o)) }
    {
        match other {
            Else::Nothing => Ok(made::nothing()),
            Else::Block(block) => self.block_tail(block, depth),
        }
    }

    // A block after `else`: one that is just an `if` is an `else if`.
    #[cycle(stmt)]
    fn block_tail(&self, block: Block, depth: u32) -> Tail
        ensures { IfOk result (λ o. SaysElse self.now (tail.Block block) (else_view o)) }
    {
        match self.only_if(block) {
            Some((test, body, rest)) => self.else_if(block, test, body, rest, depth),
            None => {
                let body = self.stmt_trees(block, depth)?;
                Ok(made::other(body))
            }
        }
    }

    // The test, the block and the rest of an `if` that is all that a block has.
    fn only_if(&self, block: Block) -> Option<(ExprId, Block, Else)>
        ensures { MatchOption result ((xs : List Stmt) → HeldAt self.now.stmts.items block.from block.many xs → is_one_if xs ≡ false) (λ r. HeldAt self.now.stmts.items block.from block.many (line.If r.0 r.1 r.2 ∷ [])) }
    {
        if block.many != 1 {
            return None;
        }
        match taken(self.stmts.as_slice(), block.from as usize) {
            Some(s) => match s {
                Stmt::If(test, body, rest) => Some((test, body, rest)),
                _ => None,
            },
            None => None,
        }
    }

    #[cycle(stmt)]
    fn else_if(&self, block: Block, test: ExprId, body: Block, rest: Else, depth: u32) -> Tail
        ensures { HeldAt self.now.stmts.items block.from block.many (line.If test body rest ∷ []) → IfOk result (λ o. SaysElse self.now (tail.Block block) (else_view o)) }
    {
        if depth == 0 {
            return Err(Unmade::Internal);
        }
        let body = self.stmt_trees(body, depth - 1)?;
        let rest = self.tail(rest, depth - 1)?;
        let test = self.expr_tree(test)?;
        let next = Box::new(self.alloc, made::next_if(test, body, rest))?;
        Ok(made::other_if(next))
    }

    #[cycle(stmt)]
    fn case_trees(&self, cases: Cases, other: Option<Block>, depth: u32) -> Result<JsCases, Unmade>
        ensures { IfOk result (λ r. SaysSwitch self.now cases other (cases_view r)) }
    {
        let arms = held(self.cases.as_slice(), cases.from, cases.many)?;
        let mut items = Vec::new(self.alloc);
        for i in 0..arms.len() {
            let c = nth(arms, i)?;
            let case = self.case_tree(c, depth)?;
            items.push(case)?;
        }
        match other {
            None => Ok(made::cases(items)),
            Some(block) => {
                let block = self.stmt_trees(block, depth)?;
                Ok(made::cases_default(items, block))
            }
        }
    }

    #[cycle(stmt)]
    fn case_tree(&self, c: Case, depth: u32) -> Result<JsCase, Unmade>
        ensures { IfOk result (λ r. SaysCase self.now c (case_view r)) }
    {
        let body = self.stmt_trees(c.body, depth)?;
        Ok(made::case(c.number as u64, body))
    }

    // A statement without blocks.
    fn simple(&self, s: Stmt) -> Said
        ensures { IfOk result (λ r. Says self.now s (stmt_view r)) }
    {
        match s {
            Stmt::Declare(x, e) => {
                let x = self.name_text(x)?;
                let e = self.expr_tree(e)?;
                Ok(made::declare(x, e))
            }
            Stmt::Assign(x, e) => {
                let x = self.name_text(x)?;
                let e = self.expr_tree(e)?;
                Ok(made::assign(x, e))
            }
            Stmt::Store(a, i, e) => {
                let a = self.expr_tree(a)?;
                let i = self.expr_tree(i)?;
                let e = self.expr_tree(e)?;
                Ok(made::store(a, i, e))
            }
            Stmt::Perform(e) => {
                let e = self.expr_tree(e)?;
                Ok(made::perform(e))
            }
            Stmt::Push(a, e) => {
                let a = self.expr_tree(a)?;
                let e = self.expr_tree(e)?;
                Ok(made::push(a, e))
            }
            Stmt::Delete(a, k) => {
                let a = self.expr_tree(a)?;
                let k = self.expr_tree(k)?;
                Ok(made::delete(a, k))
            }
            _ => self.jump(s),
        }
    }

    // A statement after which the next one doesn't follow.
    fn jump(&self, s: Stmt) -> Said
        ensures { IfOk result (λ r. Says self.now s (stmt_view r)) }
    {
        match s {
            Stmt::Return(e) => self.given(e),
            Stmt::Throw(e) => {
                let e = self.expr_tree(e)?;
                Ok(made::throw(e))
            }
            Stmt::Break(label) => {
                let label = self.label(label)?;
                Ok(made::stop(label))
            }
            Stmt::Continue(label) => {
                let label = self.label(label)?;
                Ok(made::again(label))
            }
            _ => Err(Unmade::Internal),
        }
    }

    fn given(&self, e: Option<ExprId>) -> Said
        ensures { IfOk result (λ r. Says self.now (line.Return e) (stmt_view r)) }
    {
        match e {
            Some(e) => {
                let e = self.expr_tree(e)?;
                Ok(made::gives(e))
            }
            None => Ok(made::leaves()),
        }
    }

    // ---- what stands at the top

    fn name_texts(&self, names: Names) -> Result<Vec<Text>, Unmade>
        ensures { IfOk result (λ r. NamesAre self.now names r.items) }
    {
        let part = held(self.names.as_slice(), names.from, names.many)?;
        let mut texts = Vec::new(self.alloc);
        for i in 0..part.len() {
            let x = nth(part, i)?;
            let x = self.name_text(x)?;
            texts.push(x)?;
        }
        Ok(texts)
    }

    fn function_tree(&self, x: Name, params: Names, body: Block) -> Result<JsFunction, Unmade>
        ensures { IfOk result (λ f. Tops self.now (item.Function x params body) (script.function_item (function_view f))) }
    {
        let body = self.stmt_trees(body, DEPTH)?;
        let params = self.name_texts(params)?;
        let name = self.name_text(x)?;
        Ok(JsFunction {
            name,
            params,
            body,
            at: 0,
        })
    }

    /// The tree of what stands at a script's top; `Internal` where parts lie too deep or aren't in the tables.
    pub fn item_tree(&self, item: Item) -> Result<JsItem, Unmade>
        ensures stands { IfOk result (λ i. Tops self.now item (item_view i)) }
        ensures only { IfOk result (λ i. (t : script.Item) → Tops self.now item t → item_view i ≡ t) }
    {
        self.top_tree(item)
    }

    fn top_tree(&self, item: Item) -> Result<JsItem, Unmade>
        ensures { IfOk result (λ i. Tops self.now item (item_view i)) }
    {
        match item {
            Item::Function(x, params, body) => {
                let f = self.function_tree(x, params, body)?;
                Ok(JsItem::Function(f))
            }
            Item::Global(x, e) => {
                let x = self.name_text(x)?;
                let e = self.expr_tree(e)?;
                Ok(JsItem::Global(x, e, 0))
            }
        }
    }
}
