//! Control: Go specification (as of Go 1.17), "If statements", "For statements", "Switch statements",
//! "Labeled statements", "Return statements". Each place that a branch leaves has a label `$LN`.

ghost use Rattle.std.specs.Prelude.{◌≡◌, ◌≤◌, length, [], nat_eq};
ghost use Rattle.std.specs.List.{slice_get};
ghost use Rattle.js_pool.specs.Names.{name_bytes};
ghost use Rattle.js_pool.specs.Stands.{Grows};
ghost use Rattle.js_body.specs.State.{State, temp_tree, depth, with_line, lines_since, cut_to, mark_at, with_cases, looped, continued};
ghost use Rattle.js_body.specs.Tells.{Tells, Lasts, Runs, Runs1, Gives};
ghost use Rattle.js_plain.specs.Control.{label_bytes, left_at, left_where, left_unless, closed_at, labeled_at, labeled_begun, labeled_ended, begins_chain, chain_label, chain_labelled, if_begun, chain_begun, arm_left, said_where, arm_lines, arm_ended, if_line, chain_ended, if_ended, turn_next, turns_begun, loop_begun, turn_begun, block_turn, turn_ended, loop_ended, gone_on_to, branched, chosen_set, counted, choice_begun, choice_said, chosen, default_of, choice_ended, clause_begun, clause_left, clause_ended, clauses_ended, value_returned, returned, others_returned, several_returned, values_listed, value_listed, array_returned, results_returned, named_returned, first_returned, result_returned, var_returned, all_returned, results_listed, result_listed, var_listed};
ghost use Rattle.js_plain.specs.Lines.{RunsSince, GivesThat, GivesSince, RunsArms, Returns, RunsItems, RunsResults, RunsHeld, RunsVar, GivesVar, GivesArm, SaysArm, SaysIf, EndsIf};

use go_core::statement::{BranchKind, Label};
use js_body::{Body, Exits, Home};
use js_pool::{Block, ExprId, Mark, Name};

fn label_name(n: u32) -> Name
    ensures { name_bytes result ≡ label_bytes n }
{
    Name::Numbered(b"$L", n)
}

/// Leaves what has a label.
pub fn leave_at(b: &mut Body<'_>, n: u32)
    ensures { Runs b.old b.new (left_at n) }
{
    b.pool.stop_at(label_name(n));
}

/// Leaves what has a label where a test holds.
pub fn leave_where(b: &mut Body<'_>, test: ExprId, n: u32)
    ensures { Runs1 b.old b.new test (left_where n) }
{
    let mark = b.pool.open();
    leave_at(b, n);
    let block = b.pool.close(mark);
    b.pool.when(test, block);
}

/// Leaves what has a label where the last value doesn't hold.
pub fn leave_unless(b: &mut Body<'_>, n: u32)
    ensures { Runs b.old b.new (left_unless n) }
{
    let c = b.take();
    let test = b.pool.not(c);
    leave_where(b, test, n);
}

/// The statements since a mark become a block that `break` with this label leaves.
pub fn close_at(b: &mut Body<'_>, mark: Mark, n: u32)
    ensures { RunsSince b.old b.new mark.0 (closed_at mark.0 n) }
{
    let block = b.pool.close(mark);
    b.pool.block_at(label_name(n), block);
}

/// A block that `break` with a label leaves.
#[derive(Clone, Copy)]
pub struct Labeled {
    pub end: u32,
    pub mark: Mark,
}

/// Begins a block that `break` leaves.
pub fn begin_labeled(b: &mut Body<'_>, label: Label) -> Labeled
    ensures { GivesThat b.old b.new result labeled_at (labeled_begun label) }
{
    let end = b.fresh(1);
    b.enter_label(label, end, end);
    let mark = b.pool.open();
    Labeled { end, mark }
}

/// Ends a block that `break` leaves.
pub fn end_labeled(b: &mut Body<'_>, l: Labeled)
    ensures { RunsSince b.old b.new l.mark.0 (labeled_ended l) }
{
    b.leave_label();
    close_at(b, l.mark, l.end);
}

// ---- ifs

/// An `if`: the label of the block around the chain that it is of, and whether it begins the chain, where
/// the block does.
#[derive(Clone, Copy)]
pub struct If {
    pub end: Option<u32>,
    begins: bool,
    mark: Mark,
}

/// Begins an `if`, in the chain within a block or in none. Where another `if` is all that its `else` holds,
/// both are of a chain.
pub fn begin_if(b: &mut Body<'_>, around: Option<u32>, goes_on: bool) -> If
    ensures { GivesThat b.old b.new result (if_begun around goes_on) (chain_begun around goes_on) }
{
    let begins = begins_chain(around, goes_on);
    let end = chain_end(b, around, begins);
    let mark = b.pool.open();
    If { end, begins, mark }
}

fn begins_chain(around: Option<u32>, goes_on: bool) -> bool
    ensures { result ≡ begins_chain around goes_on }
{
    goes_on && around.is_none()
}

// The label of the block around the chain.
fn chain_end(b: &mut Body<'_>, around: Option<u32>, begins: bool) -> Option<u32>
    ensures { GivesThat b.old b.new result (chain_label around begins) (chain_labelled begins) }
{
    if begins {
        let n = b.fresh(1);
        Some(n)
    } else {
        around
    }
}

/// Ends the arm of an `if` that begins at a mark.
pub fn end_arm(b: &mut Body<'_>, c: If, test: ExprId, mark: Mark) -> Block
    ensures { GivesArm b.old b.new test mark.0 result (arm_lines c mark.0) (λ t s. arm_ended c t mark.0 s) }
{
    leave_chain(b, c.end);
    let arm = b.pool.close(mark);
    say_where(b, c.end, test, arm);
    arm
}

fn leave_chain(b: &mut Body<'_>, end: Option<u32>)
    ensures { Runs b.old b.new (arm_left end) }
{
    match end {
        Some(n) => leave_at(b, n),
        None => {}
    }
}

// What stands in a chain is said where its test holds.
fn say_where(b: &mut Body<'_>, end: Option<u32>, test: ExprId, arm: Block)
    ensures { SaysArm b.old b.new test arm (said_where end) }
{
    match end {
        Some(_) => b.pool.when(test, arm),
        None => {}
    }
}

/// Ends an `if`, whose `else` begins at a mark.
pub fn end_if(b: &mut Body<'_>, c: If, test: ExprId, arm: Block, mark: Mark)
    ensures { EndsIf b.old b.new test arm mark.0 c.mark.0 (λ t ls s. if_ended c t ls mark.0 s) }
{
    match c.end {
        Some(n) => end_chain(b, c, n),
        None => say_if(b, test, arm, mark),
    }
}

fn end_chain(b: &mut Body<'_>, c: If, n: u32)
    ensures { RunsSince b.old b.new c.mark.0 (chain_ended c n) }
{
    if c.begins {
        close_at(b, c.mark, n);
    }
}

fn is_empty(d: Block) -> bool
    ensures { result ≡ nat_eq d.many 0 }
{
    d.many == 0
}

// An `if` that is of no chain.
fn say_if(b: &mut Body<'_>, test: ExprId, arm: Block, mark: Mark)
    ensures { SaysIf b.old b.new test arm mark.0 (λ t ls s. with_line (if_line t ls (lines_since mark.0 s)) (cut_to mark.0 s)) }
{
    let other = b.pool.close(mark);
    if is_empty(other) {
        b.pool.when(test, arm);
    } else {
        b.pool.when_else(test, arm, other);
    }
}

// ---- loops

/// A loop: its label, and that of the block that a turn leaves where it goes on with the next one.
#[derive(Clone, Copy)]
pub struct Turns {
    pub end: u32,
    pub next: u32,
    pub mark: Mark,
}

/// Begins a loop. Where nothing follows a turn, the next one is gone on with at once.
pub fn begin_loop(b: &mut Body<'_>, has_post: bool) -> Turns
    ensures { GivesThat b.old b.new result (λ s. turns_begun has_post (looped s)) loop_begun }
{
    b.enter_loop();
    let end = b.fresh(2);
    let next = turn_next(has_post, end);
    let mark = b.pool.open();
    Turns { end, next, mark }
}

fn turn_next(has_post: bool, end: u32) -> u32
    ensures { result ≡ turn_next has_post end }
{
    if has_post { end.saturating_add(1) } else { end }
}

/// Begins the body of a loop.
pub fn begin_turn(b: &mut Body<'_>, label: Label, l: Turns) -> Mark
    ensures { GivesThat b.old b.new result (λ s. mark_at (length s.lines)) (turn_begun label l) }
{
    b.enter_label(label, l.end, l.next);
    b.pool.open()
}

/// Ends the body of a loop: what follows a turn comes next.
pub fn end_turn(b: &mut Body<'_>, l: Turns, mark: Mark)
    ensures { RunsSince b.old b.new mark.0 (turn_ended l mark.0) }
{
    let block = is_block_turn(l, b.is_continued());
    b.leave_label();
    if block {
        close_at(b, mark, l.next);
    } else {
        join_turn(b, mark);
    }
}

fn is_block_turn(l: Turns, continued: bool) -> bool
    ensures { result ≡ block_turn l continued }
{
    continued && l.next != l.end
}

// What a turn does stands where it is.
fn join_turn(b: &mut Body<'_>, mark: Mark)
    ensures { RunsSince b.old b.new mark.0 (λ s. s) }
{
    let block = b.pool.close(mark);
    b.pool.include(block);
}

/// Ends a loop; the slices that are opened before it are opened here.
pub fn end_loop(b: &mut Body<'_>, l: Turns)
    ensures { Grows b.old.pool b.new.pool × (Lasts b.new → (s : State) → Tells b.old s → l.mark.0 ≤ length s.lines → s.around.opened ≡ [] → Tells b.new (loop_ended l s)) }
{
    let block = b.pool.close(l.mark);
    b.leave_loop();
    b.pool.forever_at(label_name(l.end), block);
}

/// A branch to a label.
pub fn branch(b: &mut Body<'_>, kind: BranchKind, label: Label)
    ensures { Runs b.old b.new (branched kind label) }
{
    let exits = b.exits_of(label);
    match kind {
        BranchKind::Break => leave_at(b, exits.after),
        BranchKind::Continue => go_on(b, label, exits),
    }
}

fn go_on(b: &mut Body<'_>, label: Label, exits: Exits)
    ensures { Runs b.old b.new (λ s. gone_on_to exits (continued label s)) }
{
    b.note_continued(label);
    say_again(b, exits);
}

fn is_next(exits: Exits) -> bool
    ensures { result ≡ nat_eq exits.next exits.after }
{
    exits.next == exits.after
}

// The next turn is gone on with at once where nothing follows a turn.
fn say_again(b: &mut Body<'_>, exits: Exits)
    ensures { Runs b.old b.new (gone_on_to exits) }
{
    if is_next(exits) {
        b.pool.again_at(label_name(exits.after));
    } else {
        leave_at(b, exits.next);
    }
}

// ---- clauses

/// The clauses of a switch: the label of the block in which one is chosen, and that of the clauses; how
/// many there are.
#[derive(Clone, Copy)]
pub struct Clauses {
    pub chosen: u32,
    pub end: u32,
    pub many: u32,
    pub mark: Mark,
}

/// Begins the choice among so many clauses.
pub fn begin_choice(b: &mut Body<'_>, many: usize) -> Clauses
    ensures { GivesThat b.old b.new result (choice_begun many) (with_cases 2) }
{
    let chosen = b.fresh(2);
    let end = chosen.saturating_add(1);
    let many = counted(many);
    let mark = b.pool.open();
    Clauses {
        chosen,
        end,
        many,
        mark,
    }
}

fn counted(many: usize) -> u32
    ensures { result ≡ counted many }
{
    if many < 4294967295 { many as u32 } else { 0 }
}

// The number of the chosen clause stands in the first temporary.
fn set_chosen(b: &mut Body<'_>, n: u32) -> ExprId
    ensures { Gives b.old b.new result (λ s. temp_tree (depth s)) (chosen_set n) }
{
    let e = b.pool.num(n as u64);
    b.scratch(e)
}

/// Chooses a clause where the last value holds.
pub fn choose(b: &mut Body<'_>, c: Clauses, n: u32)
    ensures { Runs b.old b.new (chosen c n) }
{
    let x = b.take();
    let mark = b.pool.open();
    say_choice(b, c, n);
    let block = b.pool.close(mark);
    b.pool.when(x, block);
}

fn say_choice(b: &mut Body<'_>, c: Clauses, n: u32)
    ensures { Runs b.old b.new (choice_said c n) }
{
    set_chosen(b, n);
    leave_at(b, c.chosen);
}

/// Ends the choice, with the default where nothing was chosen; gives the number of the chosen clause.
pub fn end_choice(b: &mut Body<'_>, c: Clauses, default: Option<u32>) -> ExprId
    ensures { GivesSince b.old b.new c.mark.0 result (λ s. temp_tree (depth s)) (choice_ended c (default_of default c.many)) }
{
    let tag = set_chosen(b, default_of(default, c.many));
    close_at(b, c.mark, c.chosen);
    tag
}

fn default_of(default: Option<u32>, many: u32) -> u32
    ensures { result ≡ default_of default many }
{
    match default {
        Some(n) => n,
        None => many,
    }
}

/// Begins a clause.
pub fn begin_clause(b: &mut Body<'_>, c: Clauses, label: Label) -> Mark
    ensures { GivesThat b.old b.new result (λ s. mark_at (length s.lines)) (clause_begun c label) }
{
    b.enter_label(label, c.end, c.end);
    b.pool.open()
}

/// Ends a clause with this number.
pub fn end_clause(b: &mut Body<'_>, c: Clauses, n: u32, falls_through: bool, mark: Mark)
    ensures { RunsSince b.old b.new mark.0 (clause_ended c n falls_through mark.0) }
{
    leave_clause(b, c, falls_through);
    let block = b.pool.close(mark);
    b.pool.case(n, block);
}

fn leave_clause(b: &mut Body<'_>, c: Clauses, falls_through: bool)
    ensures { Runs b.old b.new (clause_left c falls_through) }
{
    b.leave_label();
    if !falls_through {
        leave_at(b, c.end);
    }
}

/// Ends all clauses, whose cases begin at a mark.
pub fn end_clauses(b: &mut Body<'_>, c: Clauses, tag: ExprId, cases: Mark)
    ensures { RunsArms b.old b.new tag cases.0 (clauses_ended c cases.0) }
{
    let cases = b.pool.close_cases(cases);
    b.pool.switch_at(label_name(c.end), tag, cases);
}

// ---- the end

/// A return of the values on the stack; of the results as they stand where there are none.
pub fn return_values(b: &mut Body<'_>)
    ensures { Returns b.old b.new returned }
{
    if is_one(b.depth()) {
        return_one(b);
    } else {
        return_others(b);
    }
}

fn is_one(n: usize) -> bool
    ensures { result ≡ nat_eq n 1 }
{
    n == 1
}

fn is_none(n: usize) -> bool
    ensures { result ≡ nat_eq n 0 }
{
    n == 0
}

fn return_one(b: &mut Body<'_>)
    ensures { Runs b.old b.new value_returned }
{
    let e = b.take();
    b.pool.give(e);
}

fn return_others(b: &mut Body<'_>)
    ensures { Returns b.old b.new others_returned }
{
    if is_none(b.depth()) {
        return_results(b);
    } else {
        return_several(b);
    }
}

// Several values are given in an array.
fn return_several(b: &mut Body<'_>)
    ensures { Runs b.old b.new several_returned }
{
    let mark = b.pool.open_list();
    list_values(b);
    b.drop_to(0);
    give_array(b, mark);
}

fn list_values(b: &mut Body<'_>)
    ensures { Runs b.old b.new values_listed }
{
    for i in 0..b.depth() {
        list_value(b, i);
    }
}

fn list_value(b: &mut Body<'_>, place: usize)
    ensures { Runs b.old b.new (value_listed place) }
{
    let o = b.value_at(place);
    b.pool.item(o.e);
}

// The expressions since a mark are given in an array.
fn give_array(b: &mut Body<'_>, mark: Mark)
    ensures { RunsItems b.old b.new mark.0 (array_returned mark.0) }
{
    let items = b.pool.close_list(mark);
    let e = b.pool.array(items);
    b.pool.give(e);
}

// ---- the results as they stand

fn return_results(b: &mut Body<'_>)
    ensures { RunsResults b.old b.new results_returned }
{
    if is_none(result_count(b)) {
        b.pool.leave();
    } else {
        return_named(b);
    }
}

fn result_count(b: &Body<'_>) -> usize
    ensures { (s : State) → Tells b.now s → result ≡ length s.around.results }
{
    b.results.len()
}

fn return_named(b: &mut Body<'_>)
    ensures { RunsResults b.old b.new named_returned }
{
    if is_one(result_count(b)) {
        return_first(b);
    } else {
        return_all(b);
    }
}

fn home_at(homes: &[Home], i: usize) -> Option<Home>
    ensures { result ≡ slice_get homes.now i }
{
    match homes.get(i) {
        Some(h) => Some(*h),
        None => None,
    }
}

fn result_at(b: &Body<'_>, i: usize) -> Option<Home>
    ensures { (s : State) → Tells b.now s → result ≡ slice_get s.around.results i }
{
    home_at(b.results.as_slice(), i)
}

fn return_first(b: &mut Body<'_>)
    ensures { RunsResults b.old b.new first_returned }
{
    let h = result_at(b, 0);
    return_result(b, h);
}

fn return_result(b: &mut Body<'_>, h: Option<Home>)
    ensures { RunsHeld b.old b.new h (result_returned h) }
{
    match h {
        Some(h) => return_var(b, h),
        None => {}
    }
}

fn return_var(b: &mut Body<'_>, h: Home)
    ensures { RunsVar b.old b.new h (var_returned h) }
{
    let e = result_value(b, h);
    b.pool.give(e);
}

// What a variable holds, which the caller may keep.
fn result_value(b: &mut Body<'_>, h: Home) -> ExprId
    ensures { GivesVar b.old b.new h result }
{
    let e = b.var(h);
    b.own(e, h.ty)
}

fn return_all(b: &mut Body<'_>)
    ensures { RunsResults b.old b.new all_returned }
{
    let mark = b.pool.open_list();
    list_results(b);
    give_array(b, mark);
}

fn list_results(b: &mut Body<'_>)
    ensures { RunsResults b.old b.new results_listed }
{
    for i in 0..result_count(b) {
        let h = result_at(b, i);
        list_result(b, h);
    }
}

fn list_result(b: &mut Body<'_>, h: Option<Home>)
    ensures { RunsHeld b.old b.new h (result_listed h) }
{
    match h {
        Some(h) => list_var(b, h),
        None => {}
    }
}

fn list_var(b: &mut Body<'_>, h: Home)
    ensures { RunsVar b.old b.new h (var_listed h) }
{
    let e = result_value(b, h);
    b.pool.item(e);
}
