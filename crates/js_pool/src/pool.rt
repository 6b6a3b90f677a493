//! The tables.

ghost use Rattle.std.specs.Prelude.{◌≡◌, ◌≤◌, ◌-◌, true, length, IfSome, List, ℕ, ◌∷◌, []};
ghost use Rattle.std.specs.Fmt.{decimal};
ghost use Rattle.js_tree.specs.Script.{Expr};
ghost use Rattle.js_pool.specs.Stands.{HeldAt, Later, Keeps, opened, MakesNode, MakesBytes, MakesList, Stands, Shows, AddsItem, ClosesList, Puts, ClosesBytes};
ghost use Rattle.js_pool.specs.Begins.{Begins, no_open};
ghost use Rattle.js_pool.specs.Tree as tree;
ghost use Rattle.js_pool.specs.Says.{AddsLine, ClosesBlock, Includes, AddsCase, ClosesCases, PutsNames, ClosesNames, MakesNames, AddsTop};
ghost use Rattle.js_pool.specs.declared.node.Item.TheVariants as item;
ghost use Rattle.js_pool.specs.declared.node.ExprId.{ExprId};
ghost use Rattle.js_pool.specs.declared.node.Stmt.{Stmt};
ghost use Rattle.js_pool.specs.declared.node.Case.{Case};
ghost use Rattle.js_pool.specs.declared.name.Name.{Name};
ghost use Rattle.js_pool.specs.declared.pool.Pool.{Pool};

use crate::name::Name;
use crate::node::{Block, Bytes, Case, Cases, ExprId, Item, Names, Node, Span, Stmt};
use itoa::Buffer;
use std::alloc::Global;

/// All parts of a script under construction.
///
/// `lines`, `rest` and `arms` hold what belongs to lists that are still open: statements, expressions
/// and cases. A list that is closed moves to its table.
#[derive(Drop)]
pub struct Pool {
    pub nodes: Vec<Node>,
    pub lists: Vec<ExprId>,
    pub bytes: Vec<u8>,
    pub stmts: Vec<Stmt>,
    pub cases: Vec<Case>,
    pub names: Vec<Name>,
    pub items: Vec<Item>,
    /// For each item how many expressions there were after it: its own are those since the one before.
    pub ends: Vec<usize>,
    pub lines: Vec<Stmt>,
    pub rest: Vec<ExprId>,
    pub arms: Vec<Case>,
    pub alloc: Global,
    /// Whether memory ran out.
    pub failed: bool,
}

/// The beginning of an open list: how much the lists around it hold.
#[derive(Clone, Copy)]
pub struct Mark(usize);

// The length of a table as the number of what comes next, where there is room.
fn next_number(len: usize) -> Option<u32>
    ensures { IfSome result (λ n. n ≡ len) }
{
    if len < 4294967295 {
        Some(len as u32)
    } else {
        None
    }
}

impl Pool {
    /// Tables with nothing in them but expression 0, which is `null`.
    pub fn new(alloc: Global) -> Pool
        ensures { Begins result }
    {
        let mut pool = Pool::blank(alloc);
        pool.begin();
        pool
    }

    fn blank(alloc: Global) -> Pool
        ensures nodes { result.nodes.items ≡ [] }
        ensures items { result.items.items ≡ [] }
        ensures open { opened result ≡ no_open }
    {
        Pool {
            nodes: Vec::new(alloc),
            lists: Vec::new(alloc),
            bytes: Vec::new(alloc),
            stmts: Vec::new(alloc),
            cases: Vec::new(alloc),
            names: Vec::new(alloc),
            items: Vec::new(alloc),
            ends: Vec::new(alloc),
            lines: Vec::new(alloc),
            rest: Vec::new(alloc),
            arms: Vec::new(alloc),
            alloc,
            failed: false,
        }
    }

    fn begin(&mut self)
        ensures open { opened self.new ≡ opened self.old }
        ensures first { self.old.nodes.items ≡ [] → (end : Pool) → Later self.new end → (self.new.items.items ≡ self.old.items.items) × Stands end (record { 0 = 0 }) tree.null }
    {
        match self.nodes.push(Node::Null) {
            Ok(()) => {}
            Err(_) => self.fail(),
        }
    }

    // Memory ran out.
    fn fail(&mut self)
        ensures { (self.new.failed ≡ true) × (opened self.new ≡ opened self.old) }
    {
        self.failed = true;
    }

    // ---- expressions

    /// Adds an expression.
    pub fn add(&mut self, node: Node) -> ExprId
        ensures keeps { Keeps self.old self.new }
        ensures makes { MakesNode self.new result node }
    {
        if self.failed {
            return ExprId(0);
        }
        match next_number(self.nodes.len()) {
            Some(n) => self.add_at(n, node),
            None => {
                self.fail();
                ExprId(0)
            }
        }
    }

    fn add_at(&mut self, n: u32, node: Node) -> ExprId
        ensures keeps { Keeps self.old self.new }
        ensures makes { n ≡ length self.old.nodes.items → MakesNode self.new result node }
    {
        match self.nodes.push(node) {
            Ok(()) => ExprId(n),
            Err(_) => {
                self.fail();
                ExprId(0)
            }
        }
    }

    /// The expression with a number; `null` where there is none.
    #[tactic(auto, using(crate::proofs::Nodes::shown))]
    pub fn node(&self, id: ExprId) -> Node
        ensures { (t : Expr) → Stands self.now id t → Shows self.now result t }
    {
        match self.nodes.get(id.0 as usize) {
            Some(node) => *node,
            None => Node::Null,
        }
    }

    /// These expressions in order.
    pub fn list(&mut self, items: &[ExprId]) -> Span
        ensures keeps { Keeps self.old self.new }
        ensures makes { MakesList self.new result items.now }
    {
        let from = next_number(self.lists.len());
        let many = next_number(items.len());
        match (from, many) {
            (Some(from), Some(many)) => self.list_at(from, many, items),
            _ => {
                self.fail();
                Span { from: 0, many: 0 }
            }
        }
    }

    fn list_at(&mut self, from: u32, many: u32, items: &[ExprId]) -> Span
        ensures keeps { Keeps self.old self.new }
        ensures makes { «from» ≡ length self.old.lists.items → many ≡ length items.now → MakesList self.new result items.now }
    {
        match self.lists.extend_from_slice(items) {
            Ok(()) => Span { from, many },
            Err(_) => {
                self.fail();
                Span { from, many }
            }
        }
    }

    /// Begins a list of expressions, which `item` adds to.
    pub fn open_list(&self) -> Mark
        ensures { result.0 ≡ length (opened self.now).rest }
    {
        Mark(self.rest.len())
    }

    /// One more expression of the innermost open list.
    pub fn item(&mut self, e: ExprId)
        ensures { AddsItem self.old self.new e }
    {
        match self.rest.push(e) {
            Ok(()) => {}
            Err(_) => self.fail(),
        }
    }

    /// The expressions since a list was opened.
    pub fn close_list(&mut self, mark: Mark) -> Span
        ensures { ClosesList self.old self.new mark.0 result }
    {
        let begun = mark.0.min(self.rest.len());
        let from = next_number(self.lists.len());
        let many = next_number(self.rest.len() - begun);
        match (from, many) {
            (Some(from), Some(many)) => self.move_items(begun, from, many),
            _ => {
                self.fail();
                Span { from: 0, many: 0 }
            }
        }
    }

    fn move_items(&mut self, begun: usize, from: u32, many: u32) -> Span
        requires { begun ≤ length self.now.rest.items }
        ensures { «from» ≡ length self.old.lists.items → many ≡ length self.old.rest.items - begun → ClosesList self.old self.new begun result }
    {
        match self.lists.extend_from_slice(&self.rest[begun..]) {
            Ok(()) => {
                self.rest.truncate(begun);
                Span { from, many }
            }
            Err(_) => {
                self.fail();
                Span { from, many }
            }
        }
    }

    // ---- bytes

    /// These bytes.
    pub fn word(&mut self, word: &[u8]) -> Bytes
        ensures keeps { Keeps self.old self.new }
        ensures makes { MakesBytes self.new result word.now }
    {
        let mark = self.open_bytes();
        self.put(word);
        self.close_bytes(mark)
    }

    /// Begins a string, which `put` and `put_number` add to. One string is made at a time.
    pub fn open_bytes(&self) -> Mark
        ensures { result.0 ≡ length self.now.bytes.items }
    {
        Mark(self.bytes.len())
    }

    /// Bytes at the end of the open string.
    pub fn put(&mut self, word: &[u8])
        ensures { Puts self.old self.new word.now }
    {
        match self.bytes.extend_from_slice(word) {
            Ok(()) => {}
            Err(_) => self.fail(),
        }
    }

    /// A decimal number at the end of the open string.
    pub fn put_number(&mut self, n: u32)
        ensures { Puts self.old self.new (decimal n) }
    {
        let mut room = Buffer::new();
        self.put(room.format(n).as_bytes());
    }

    /// The bytes since a string was begun.
    pub fn close_bytes(&mut self, mark: Mark) -> Bytes
        ensures { ClosesBytes self.old self.new mark.0 result }
    {
        let begun = mark.0.min(self.bytes.len());
        let from = next_number(begun);
        let many = next_number(self.bytes.len() - begun);
        match (from, many) {
            (Some(from), Some(many)) => Bytes { from, many },
            _ => {
                self.fail();
                Bytes { from: 0, many: 0 }
            }
        }
    }

    // ---- statements

    /// Adds a statement to the innermost open block.
    pub fn say(&mut self, stmt: Stmt)
        ensures { AddsLine self.old self.new stmt }
    {
        match self.lines.push(stmt) {
            Ok(()) => {}
            Err(_) => self.fail(),
        }
    }

    /// Opens a block: the statements that follow are its own, until it is closed.
    pub fn open(&self) -> Mark
        ensures { result.0 ≡ length (opened self.now).lines }
    {
        Mark(self.lines.len())
    }

    /// Closes a block, and gives its statements.
    pub fn close(&mut self, mark: Mark) -> Block
        ensures { ClosesBlock self.old self.new mark.0 result }
    {
        let begun = mark.0.min(self.lines.len());
        let from = next_number(self.stmts.len());
        let many = next_number(self.lines.len() - begun);
        match (from, many) {
            (Some(from), Some(many)) => self.move_lines(begun, from, many),
            _ => {
                self.fail();
                Block { from: 0, many: 0 }
            }
        }
    }

    fn move_lines(&mut self, begun: usize, from: u32, many: u32) -> Block
        requires { begun ≤ length self.now.lines.items }
        ensures { «from» ≡ length self.old.stmts.items → many ≡ length self.old.lines.items - begun → ClosesBlock self.old self.new begun result }
    {
        match self.stmts.extend_from_slice(&self.lines[begun..]) {
            Ok(()) => {
                self.lines.truncate(begun);
                Block { from, many }
            }
            Err(_) => {
                self.fail();
                Block { from, many }
            }
        }
    }

    /// Adds the statements of a closed block to the innermost open one.
    pub fn include(&mut self, block: Block)
        ensures { Includes self.old self.new block }
    {
        let stmts = block.of(self.stmts.as_slice());
        match self.lines.extend_from_slice(stmts) {
            Ok(()) => {}
            Err(_) => self.fail(),
        }
    }

    // ---- cases

    /// Begins the cases of a `switch`.
    pub fn open_cases(&self) -> Mark
        ensures { result.0 ≡ length (opened self.now).arms }
    {
        Mark(self.arms.len())
    }

    /// One more case of the innermost open `switch`.
    pub fn case(&mut self, number: u32, body: Block)
        ensures { AddsCase self.old self.new number body }
    {
        match self.arms.push(Case { number, body }) {
            Ok(()) => {}
            Err(_) => self.fail(),
        }
    }

    /// The cases since those of a `switch` were begun.
    pub fn close_cases(&mut self, mark: Mark) -> Cases
        ensures { ClosesCases self.old self.new mark.0 result }
    {
        let begun = mark.0.min(self.arms.len());
        let from = next_number(self.cases.len());
        let many = next_number(self.arms.len() - begun);
        match (from, many) {
            (Some(from), Some(many)) => self.move_arms(begun, from, many),
            _ => {
                self.fail();
                Cases { from: 0, many: 0 }
            }
        }
    }

    fn move_arms(&mut self, begun: usize, from: u32, many: u32) -> Cases
        requires { begun ≤ length self.now.arms.items }
        ensures { «from» ≡ length self.old.cases.items → many ≡ length self.old.arms.items - begun → ClosesCases self.old self.new begun result }
    {
        match self.cases.extend_from_slice(&self.arms[begun..]) {
            Ok(()) => {
                self.arms.truncate(begun);
                Cases { from, many }
            }
            Err(_) => {
                self.fail();
                Cases { from, many }
            }
        }
    }

    // ---- items

    /// Begins a list of parameters. One list of parameters is made at a time.
    pub fn open_params(&self) -> Mark
        ensures { result.0 ≡ length self.now.names.items }
    {
        Mark(self.names.len())
    }

    /// One more parameter.
    pub fn param(&mut self, name: Name)
        ensures { PutsNames self.old self.new (name ∷ []) }
    {
        match self.names.push(name) {
            Ok(()) => {}
            Err(_) => self.fail(),
        }
    }

    /// The parameters since a list of them was begun.
    pub fn close_params(&mut self, mark: Mark) -> Names
        ensures { ClosesNames self.old self.new mark.0 result }
    {
        let begun = mark.0.min(self.names.len());
        let from = next_number(begun);
        let many = next_number(self.names.len() - begun);
        match (from, many) {
            (Some(from), Some(many)) => Names { from, many },
            _ => {
                self.fail();
                Names { from: 0, many: 0 }
            }
        }
    }

    /// These parameters.
    pub fn params(&mut self, names: &[Name]) -> Names
        ensures keeps { Keeps self.old self.new }
        ensures makes { MakesNames self.new result names.now }
    {
        let mark = self.open_params();
        self.put_names(names);
        self.close_params(mark)
    }

    fn put_names(&mut self, names: &[Name])
        ensures { PutsNames self.old self.new names.now }
    {
        match self.names.extend_from_slice(names) {
            Ok(()) => {}
            Err(_) => self.fail(),
        }
    }

    /// A function at the script's top.
    pub fn function(&mut self, name: Name, params: Names, body: Block)
        ensures { AddsTop self.old self.new (item.Function name params body) }
    {
        self.top(Item::Function(name, params, body));
    }

    /// A variable at the script's top, with its first value.
    pub fn global(&mut self, name: Name, e: ExprId)
        ensures { AddsTop self.old self.new (item.Global name e) }
    {
        self.top(Item::Global(name, e));
    }

    fn top(&mut self, item: Item)
        ensures { AddsTop self.old self.new item }
    {
        self.end_item();
        match self.items.push(item) {
            Ok(()) => {}
            Err(_) => self.fail(),
        }
    }

    // The expressions so far are those of the items up to this one.
    fn end_item(&mut self)
        ensures { Keeps self.old self.new × ((end : Pool) → Later self.new end → self.new.items.items ≡ self.old.items.items) }
    {
        match self.ends.push(self.nodes.len()) {
            Ok(()) => {}
            Err(_) => self.fail(),
        }
    }
}

// The elements of a list from a number on, so many; fewer where the list ends before.
fn part<T>(items: &[T], from: u32, many: u32) -> &[T]
    ensures { (xs : List T) → HeldAt items.now «from» many xs → result.now ≡ xs }
{
    let n = items.len();
    let from = (from as usize).min(n);
    let many = (many as usize).min(n - from);
    &items[from..from + many]
}

impl Bytes {
    /// Its bytes.
    pub fn of(self, table: &[u8]) -> &[u8]
        ensures { (xs : List ℕ) → HeldAt table.now self.from self.many xs → result.now ≡ xs }
    {
        part(table, self.from, self.many)
    }
}

impl Span {
    /// Its expressions.
    pub fn of(self, table: &[ExprId]) -> &[ExprId]
        ensures { (xs : List ExprId) → HeldAt table.now self.from self.many xs → result.now ≡ xs }
    {
        part(table, self.from, self.many)
    }
}

impl Block {
    /// Its statements.
    pub fn of(self, table: &[Stmt]) -> &[Stmt]
        ensures { (xs : List Stmt) → HeldAt table.now self.from self.many xs → result.now ≡ xs }
    {
        part(table, self.from, self.many)
    }
}

impl Cases {
    /// Its cases.
    pub fn of(self, table: &[Case]) -> &[Case]
        ensures { (xs : List Case) → HeldAt table.now self.from self.many xs → result.now ≡ xs }
    {
        part(table, self.from, self.many)
    }
}

impl Names {
    /// Its names.
    pub fn of(self, table: &[Name]) -> &[Name]
        ensures { (xs : List Name) → HeldAt table.now self.from self.many xs → result.now ≡ xs }
    {
        part(table, self.from, self.many)
    }
}
