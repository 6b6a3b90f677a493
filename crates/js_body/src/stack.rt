//! Values on the stack, and the temporaries that hold them.

ghost use Rattle.std.specs.Prelude.{◌≡◌, ◌+◌, ◌-◌, ◌++◌, ◌<◌, true, false, length, get_or, set, replicate, reverse, List, [], ◌∷◌, Some, suc, nat_eq};
ghost use Rattle.js_tree.specs.Script.{Expr};
ghost use Rattle.js_pool.specs.declared.pool.Pool.{Pool};
ghost use Rattle.js_pool.specs.Stands.{Stands, Builds2};
ghost use Rattle.js_body.specs.State.{State, Line, temp_number, temp_tree, marked, with_declared, with_temp, set_temp, set_name, is_first, pushed, pushed_known, pushed_operand, last_value, popped, is_temporary, is_temp, set_by, just_set, set_last, unset, taken_tree, taken, only_set, is_joined, can_join, may_join, joined_tree, set_joined, sides_joined, is_join, joined, more_adapters, adapted, operand_tree, operand_taken, is_operation, is_variable, settled, constant_settled, variables_settled, settled_at, depth, scratched, value_at, dropped_to, set_value};
ghost use Rattle.js_body.specs.Tells.{Tells, Runs, Runs1, Runs2, RunsBlock, RunsBlock1, Decides2, BlockIs, joins, Gives, Gives1, GivesValue, PutsValue, ValueIs, LineIs, MayStand, LinesAre, DropsLine, is_declaration, does_operation, word_of};

use crate::body::{Body, Known, Operand};
use js_pool::{Block, ExprId, Name, Node, Pool, Stmt};

impl Known {
    // Whether a value is a variable of a plain function.
    fn is_variable(self) -> bool
        ensures { result ≡ is_variable self }
    {
        match self {
            Known::Variable => true,
            _ => false,
        }
    }

    // Whether a value is a temporary.
    fn is_temporary(self) -> bool
        ensures { result ≡ is_temporary self }
    {
        match self {
            Known::Nothing => true,
            _ => false,
        }
    }
}

// Whether a name is that of the temporary at a place of the stack.
fn is_temp(x: Name, place: usize) -> bool
    ensures { result ≡ is_temp (word_of x) place }
{
    match x {
        Name::Numbered(word, k) => k as usize == place && *word == *b"$t".as_slice(),
        Name::Word(_) => false,
    }
}

// The number of the temporary at a place of the stack.
fn temp_number(place: usize) -> u32
    ensures { result ≡ temp_number place }
{
    if place < 4294967295 { place as u32 } else { 0 }
}

// Memory ran out.
pub(crate) fn fail(p: &mut Pool)
    ensures { p.new.failed ≡ true }
{
    p.failed = true;
}

// Sets what is noted of a place; false where memory runs out.
fn note(flags: &mut Vec<bool>, place: usize, b: bool) -> bool
    ensures { result ≡ true → flags.new.items ≡ marked place b flags.old.items }
{
    if !has_room(flags, place) {
        return false;
    }
    flags[place] = b;
    true
}

fn has_room(flags: &mut Vec<bool>, place: usize) -> bool
    ensures { result ≡ true → (flags.new.items ≡ flags.old.items ++ replicate (place + 1 - length flags.old.items) false) × (place < length flags.new.items) }
{
    if place < flags.len() {
        return true;
    }
    match place.checked_add(1) {
        Some(n) => flags.resize(n, false).is_ok(),
        None => false,
    }
}

// Sets a value of the stack, where there is one.
fn set_at(stack: &mut Vec<Operand>, place: usize, o: Operand)
    ensures { stack.new.items ≡ set stack.old.items place o }
{
    if place < stack.len() {
        stack[place] = o;
    }
}

// What the last of these statements sets the temporary at a place to, where it does so.
fn set_by(lines: &[Stmt], place: usize) -> Option<ExprId>
    ensures { (p : Pool) (ls : List Line) → LinesAre p (reverse lines.now) ls → MayStand p result (set_by place ls) }
{
    match lines.last() {
        Some(line) => set_to(*line, place),
        None => None,
    }
}

fn set_to(line: Stmt, place: usize) -> Option<ExprId>
    ensures { (p : Pool) (l : Line) (ls : List Line) → LineIs p line l → MayStand p result (set_by place (l ∷ ls)) }
{
    match line {
        Stmt::Assign(x, e) => { if is_temp(x, place) { Some(e) } else { None } }
        Stmt::Declare(x, e) => { if is_temp(x, place) { Some(e) } else { None } }
        _ => None,
    }
}

// The last statement goes; says whether it declared a name.
fn drop_line(p: &mut Pool) -> bool
    ensures { DropsLine p.old p.new result }
{
    match p.lines.pop() {
        Some(line) => is_declaration(line),
        None => false,
    }
}

fn does_operation(node: Node) -> bool
    ensures { result ≡ does_operation node }
{
    match node {
        Node::Unary(_, _) | Node::Binary(_, _, _) | Node::Index(_, _) | Node::Length(_) => true,
        _ => false,
    }
}

// What the temporary at a place of the stack is set to by these statements, which do nothing else.
fn only_set(lines: &[Stmt], place: usize) -> Option<ExprId>
    ensures { (p : Pool) (ls : List Line) → LinesAre p (reverse lines.now) ls → MayStand p result (only_set place ls) }
{
    match lines.last() {
        Some(line) => only_line(lines.len(), *line, place),
        None => None,
    }
}

// Likewise by the last one of so many.
fn only_line(many: usize, line: Stmt, place: usize) -> Option<ExprId>
    ensures { (p : Pool) (l : Line) (ls : List Line) → LineIs p line l → many ≡ suc (length ls) → MayStand p result (only_set place (l ∷ ls)) }
{
    if is_one(many) {
        assigned_to(line, place)
    } else {
        None
    }
}

fn is_one(n: usize) -> bool
    ensures { result ≡ nat_eq n 1 }
{
    n == 1
}

fn assigned_to(line: Stmt, place: usize) -> Option<ExprId>
    ensures { (p : Pool) (l : Line) → LineIs p line l → MayStand p result (only_set place (l ∷ [])) }
{
    match line {
        Stmt::Assign(x, e) => { if is_temp(x, place) { Some(e) } else { None } }
        _ => None,
    }
}

// So many numbers of arguments have adapters, once this one has.
fn more_of(adapters: u32, arguments: u32) -> u32
    ensures { result ≡ more_adapters arguments adapters }
{
    if adapters <= arguments {
        arguments.saturating_add(1)
    } else {
        adapters
    }
}

fn joins(node: Node) -> bool
    ensures { result ≡ joins node }
{
    match node {
        Node::And(_, _) | Node::Or(_, _) => true,
        _ => false,
    }
}

// Both sides as one expression.
fn join_of(p: &mut Pool, both: bool, left: ExprId, right: ExprId) -> ExprId
    ensures { Builds2 p.old p.new result left right (joined_tree both) }
{
    if both {
        p.both(left, right)
    } else {
        p.either(left, right)
    }
}

fn is_declaration(line: Stmt) -> bool
    ensures { result ≡ is_declaration line }
{
    match line {
        Stmt::Declare(_, _) => true,
        _ => false,
    }
}

impl<'p> Body<'p> {
    /// How many values there are.
    pub fn depth(&self) -> usize
        ensures { (s : State) → Tells self.now s → result ≡ depth s }
    {
        self.stack.len()
    }

    fn put(&mut self, o: Operand)
        ensures { PutsValue self.old self.new o }
    {
        match self.stack.push(o) {
            Ok(()) => {}
            Err(_) => fail(&mut self.pool),
        }
    }

    // Sets the temporary at a place of the stack, and gives its name.
    fn set_temp(&mut self, place: usize, e: ExprId) -> ExprId
        ensures { Gives1 self.old self.new e result (λ t s. temp_tree place) (set_temp place) }
    {
        let k = temp_number(place);
        self.count_temp(k);
        let x = Name::Numbered(b"$t", k);
        self.set_name(place, x, e);
        self.pool.named(x)
    }

    // A function has the temporary with this number.
    fn count_temp(&mut self, k: u32)
        ensures { Runs self.old self.new (with_temp k) }
    {
        if self.temps <= k {
            self.temps = k.saturating_add(1);
        }
    }

    // The first statement of a plain function that sets a temporary declares it.
    fn set_name(&mut self, place: usize, x: Name, e: ExprId)
        ensures { Runs1 self.old self.new e (set_name place (word_of x)) }
    {
        if self.is_first(place) {
            self.set_declared(place, true);
            self.pool.declare(x, e);
        } else {
            self.pool.assign(x, e);
        }
    }

    // Whether a statement that sets a temporary is to declare it.
    fn is_first(&self, place: usize) -> bool
        ensures { (s : State) → Tells self.now s → result ≡ is_first place s }
    {
        self.plain && !self.is_declared(place)
    }

    // Whether a plain function has declared a temporary.
    fn is_declared(&self, place: usize) -> bool
        ensures { result ≡ get_or self.now.declared.items place false }
    {
        match self.declared.get(place) {
            Some(b) => *b,
            None => false,
        }
    }

    fn set_declared(&mut self, place: usize, b: bool)
        ensures { Runs self.old self.new (with_declared place b) }
    {
        if !note(&mut self.declared, place, b) {
            fail(&mut self.pool);
        }
    }

    /// One more value, in its temporary.
    pub fn push(&mut self, e: ExprId)
        ensures { Runs1 self.old self.new e pushed }
    {
        let place = self.stack.len();
        let e = self.set_temp(place, e);
        self.put(Operand {
            e,
            known: Known::Nothing,
        });
    }

    /// One more value, a constant.
    pub fn push_known(&mut self, e: ExprId, known: Known)
        ensures { Runs1 self.old self.new e (pushed_known known) }
    {
        self.put(Operand { e, known });
    }

    /// One more value, which is this operand.
    pub fn push_operand(&mut self, o: Operand)
        ensures { Runs1 self.old self.new o.e (pushed_operand o.known) }
    {
        match o.known {
            Known::Nothing => self.push(o.e),
            _ => self.push_known(o.e, o.known),
        }
    }

    /// Takes the last value from the stack.
    pub fn pop(&mut self) -> Operand
        ensures { GivesValue self.old self.new result last_value popped }
    {
        match self.stack.pop() {
            Some(o) => o,
            None => Operand {
                e: ExprId(0),
                known: Known::Nil,
            },
        }
    }

    // What the last statement of a plain function sets the last value's temporary to, where it does so.
    fn just_set(&self) -> Option<ExprId>
        ensures { (s : State) → Tells self.now s → MayStand self.now.pool result (just_set s) }
    {
        if self.plain { self.set_last() } else { None }
    }

    fn set_last(&self) -> Option<ExprId>
        ensures { (s : State) → Tells self.now s → MayStand self.now.pool result (set_last s) }
    {
        if self.last().known.is_temporary() {
            let place = self.stack.len().saturating_sub(1);
            set_by(self.pool.lines.as_slice(), place)
        } else {
            None
        }
    }

    // The last statement, which sets a temporary, goes.
    fn unset(&mut self, place: usize)
        ensures { Runs self.old self.new (unset place) }
    {
        if drop_line(&mut self.pool) {
            self.set_declared(place, false);
        }
    }

    /// Takes the last value from the stack, which a statement right after uses once: where the last statement sets its
    /// temporary, what it is set to stands for it, and that statement goes.
    pub fn take(&mut self) -> ExprId
        ensures { Gives self.old self.new result taken_tree taken }
    {
        let set = self.just_set();
        let o = self.pop();
        match set {
            Some(e) => {
                let place = self.stack.len();
                self.unset(place);
                e
            }
            None => o.e,
        }
    }

    /// The same for an operand of a call: no call stands in it.
    pub fn take_operand(&mut self) -> ExprId
        ensures { Gives self.old self.new result operand_tree operand_taken }
    {
        match self.just_set() {
            Some(e) => {
                if self.is_operation(e) {
                    self.take()
                } else {
                    self.pop().e
                }
            }
            None => self.pop().e,
        }
    }

    fn is_operation(&self, e: ExprId) -> bool
        ensures { (t : Expr) → Stands self.now.pool e t → result ≡ is_operation t }
    {
        does_operation(self.pool.node(e))
    }

    /// Joins the last value with what a block sets it to, where that is all that the block does: then the operator does
    /// what the block would.
    pub fn join(&mut self, block: Block, both: bool) -> bool
        ensures { RunsBlock self.old self.new block result is_join (joined both) }
    {
        let place = self.stack.len().saturating_sub(1);
        match self.just_set() {
            Some(left) => self.join_left(block, place, left, both),
            None => false,
        }
    }

    // Joins a left side with what a block does.
    fn join_left(&mut self, block: Block, place: usize, left: ExprId, both: bool) -> bool
        ensures { RunsBlock1 self.old self.new block left result (λ t ls. may_join (Some t) (only_set place ls)) (λ t ls s. sides_joined place both (Some t) (only_set place ls) s) }
    {
        match self.only_set(block, place) {
            Some(right) => self.join_sides(place, left, right, both),
            None => false,
        }
    }

    // Joins two sides, where neither is joined of two.
    fn join_sides(&mut self, place: usize, left: ExprId, right: ExprId, both: bool) -> bool
        ensures { Decides2 self.old self.new left right result can_join (λ t u s. sides_joined place both (Some t) (Some u) s) }
    {
        if self.can_join(left, right) {
            self.set_joined(place, left, right, both);
            true
        } else {
            false
        }
    }

    fn can_join(&self, left: ExprId, right: ExprId) -> bool
        ensures { (t u : Expr) → Stands self.now.pool left t → Stands self.now.pool right u → result ≡ can_join t u }
    {
        !self.is_joined(left) && !self.is_joined(right)
    }

    fn is_joined(&self, e: ExprId) -> bool
        ensures { (t : Expr) → Stands self.now.pool e t → result ≡ is_joined t }
    {
        joins(self.pool.node(e))
    }

    // The last statement, which sets the temporary of a place, sets it to both sides joined.
    fn set_joined(&mut self, place: usize, left: ExprId, right: ExprId, both: bool)
        ensures { Runs2 self.old self.new left right (set_joined place both) }
    {
        self.unset(place);
        let e = join_of(&mut self.pool, both, left, right);
        self.set_temp(place, e);
    }

    // What the temporary at a place of the stack is set to by a block that does nothing else.
    fn only_set(&self, block: Block, place: usize) -> Option<ExprId>
        ensures { (ls : List Line) → BlockIs self.now.pool block ls → MayStand self.now.pool result (only_set place ls) }
    {
        only_set(block.of(self.pool.stmts.as_slice()), place)
    }

    /// The last value of the stack.
    pub fn last(&self) -> Operand
        ensures { (s : State) → Tells self.now s → ValueIs self.now.pool result (last_value s) }
    {
        match self.stack.last() {
            Some(o) => *o,
            None => Operand {
                e: ExprId(0),
                known: Known::Nil,
            },
        }
    }

    /// The value at a place of the stack.
    pub fn value_at(&self, place: usize) -> Operand
        ensures { (s : State) → Tells self.now s → ValueIs self.now.pool result (value_at place s) }
    {
        match self.stack.get(place) {
            Some(o) => *o,
            None => Operand {
                e: ExprId(0),
                known: Known::Nil,
            },
        }
    }

    /// Takes all values from a place on from the stack.
    pub fn drop_to(&mut self, place: usize)
        ensures { Runs self.old self.new (dropped_to place) }
    {
        self.stack.truncate(place);
    }

    /// Sets the temporary of a value on the stack anew.
    pub fn set_value(&mut self, place: usize, e: ExprId)
        ensures { Runs1 self.old self.new e (set_value place) }
    {
        let e = self.set_temp(place, e);
        let o = Operand {
            e,
            known: Known::Nothing,
        };
        set_at(&mut self.stack, place, o);
    }

    /// The last value becomes a temporary, where it is a constant.
    pub fn settle(&mut self)
        ensures { Runs self.old self.new settled }
    {
        let o = self.pop();
        if o.known.is_temporary() {
            self.put(o);
        } else {
            self.push(o.e);
        }
    }

    /// The last value becomes a temporary, where it is a constant and no variable.
    pub fn settle_constant(&mut self)
        ensures { Runs self.old self.new constant_settled }
    {
        if !self.last().known.is_variable() {
            self.settle();
        }
    }

    /// Values that are variables become temporaries, since assignments follow.
    pub fn settle_variables(&mut self)
        ensures { Runs self.old self.new variables_settled }
    {
        for i in 0..self.depth() {
            self.settle_at(i);
        }
    }

    fn settle_at(&mut self, place: usize)
        ensures { Runs self.old self.new (settled_at place) }
    {
        let o = self.value_at(place);
        if o.known.is_variable() {
            self.set_value(place, o.e);
        }
    }

    /// A temporary above all values, which is gone with the next one.
    pub fn scratch(&mut self, e: ExprId) -> ExprId
        ensures { Gives1 self.old self.new e result (λ t s. temp_tree (depth s)) scratched }
    {
        self.push(e);
        self.pop().e
    }

    /// A frame that calls a plain function with so many arguments is needed.
    pub fn need_adapter(&mut self, arguments: u32)
        ensures { Runs self.old self.new (adapted arguments) }
    {
        self.adapters = more_of(self.adapters, arguments);
    }
}
