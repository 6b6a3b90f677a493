//! `if` and `for`.

ghost use Rattle.std.specs.Prelude.{◌≡◌, ◌∷◌, []};
ghost use Rattle.go_syntax.specs.Tree as t;
ghost use Rattle.go_grammar.specs.Frames as f;
ghost use Rattle.go_grammar.specs.ExprSteps as steps;
ghost use Rattle.go_grammar.specs.Nodes as nodes;
ghost use Rattle.go_grammar.specs.StmtSteps as rows;
ghost use Rattle.go_syntax.specs.View.{expr_view, exprs_of, block_view, stmt_view};
ghost use Rattle.go_frames.specs.FrameView.{Comes, token_of, exprs_in, expr_perhaps, stmt_perhaps, if_part, for_part, control_frame, stack_view};

use go_frames::begins::control::new_if;
use go_frames::begins::expr::{begin_expr, then_expr};
use go_frames::begins::simple::begin_simple;
use go_frames::ends::lost::{lost, lost_at};
use go_frames::ends::refused::{long_at, stuck, stuck_at, stuck_with};
use go_frames::frames::at::At;
use go_frames::frames::ctx::{Ctx, LONGEST, one_more};
use go_frames::frames::form::{block_stmt, for_stmt, if_stmt, into_expr, range};
use go_frames::frames::frame::{ControlFrame, ForPart, Frame, IfPart, Mode, Value};
use go_frames::frames::stack::{Answer, Stack, goes, open_block, over};
use go_syntax::tree::{Block, Expr, Stmt};
use go_syntax::{Keyword, Operator};
use std::alloc::Global;

fn with_init(part: IfPart, init: Option<Stmt>) -> IfPart
    ensures value { if_part result ≡ record (if_part part) { init = stmt_perhaps init } }
{
    IfPart {
        blocks: part.blocks,
        place: part.place,
        elses: part.elses,
        init,
    }
}

/// What the top frame does at the token.
pub fn control_row(alloc: Global, at: At, text: &[u8], frame: ControlFrame, stack: Stack) -> Answer
    ensures value { Comes result (rows.control_row (token_of at text.now) (control_frame frame) (stack_view stack)) }
{
    match frame {
        ControlFrame::If(part) => if_head(alloc, at, text, part, stack),
        ControlFrame::Condition(part) => condition(alloc, at, text, part, stack),
        ControlFrame::Else(part, e, block) => after_else(alloc, at, part, e, block, stack),
        ControlFrame::For(part) => for_head(alloc, at, text, part, stack),
        ControlFrame::ForCondition(part, init) => for_condition(alloc, at, text, part, init, stack),
        ControlFrame::Post(part, init, e) => for_post(alloc, at, text, part, init, e, stack),
        other => stuck_at(Frame::Control(other), stack),
    }
}

/// "if" [[Simple] ";"] Expr Block
fn if_head(alloc: Global, at: At, text: &[u8], part: IfPart, stack: Stack) -> Answer
    ensures value { Comes result (rows.control_row (token_of at text.now) (f.AtIf (if_part part)) (stack_view stack)) }
{
    if at.is_semicolon() {
        return goes(stack, Frame::Control(ControlFrame::Condition(part)));
    }
    let c = Ctx::header(part.blocks);
    let stack = stack.with(Frame::Control(ControlFrame::If(part)))?;
    begin_simple(alloc, at, text, c, Mode::Header, stack)
}

/// The condition after a `;`.
fn condition(alloc: Global, at: At, text: &[u8], part: IfPart, stack: Stack) -> Answer
    ensures value { Comes result (rows.control_row (token_of at text.now) (f.Condition (if_part part)) (stack_view stack)) }
{
    let c = Ctx::header(part.blocks);
    let stack = stack.with(Frame::Control(ControlFrame::Condition(part)))?;
    begin_expr(alloc, at, text, c, stack)
}

/// After the condition: the block.
fn then_block(alloc: Global, at: At, part: IfPart, e: Expr, stack: Stack) -> Answer
    ensures value { Comes result (rows.then_block (token_of at []) (if_part part) (expr_view e) (stack_view stack)) }
{
    let blocks = part.blocks;
    let stack = stack.with(Frame::Control(ControlFrame::Then(part, e)))?;
    open_block(alloc, at, blocks, stack)
}

fn after_if_simple(alloc: Global, at: At, part: IfPart, s: Stmt, stack: Stack) -> Answer
    ensures value { Comes result (rows.control_meets_stmt (token_of at []) (f.AtIf (if_part part)) (stmt_view s) (stack_view stack)) }
{
    if at.is_semicolon() {
        return goes(
            stack,
            Frame::Control(ControlFrame::Condition(with_init(part, Some(s)))),
        );
    }
    match into_expr(s) {
        None => stuck_at(Frame::Control(ControlFrame::If(part)), stack),
        Some(e) => then_block(alloc, at, part, e, stack),
    }
}

fn after_then(alloc: Global, at: At, part: IfPart, e: Expr, block: Block, stack: Stack) -> Answer
    ensures value { Comes result (rows.control_meets_block (token_of at []) (f.Then (if_part part) (expr_view e)) (block_view block) (stack_view stack)) }
{
    if at.is_word(Keyword::Else) {
        return begin_else(at, part, e, block, stack);
    }
    over_if(alloc, part, e, block, None, stack)
}

/// `else`
fn begin_else(at: At, part: IfPart, e: Expr, block: Block, stack: Stack) -> Answer
    ensures value { Comes result (steps.if_short part.elses at.place (f.Goes (f.OfControl (f.AtElse (if_part part) (expr_view e) (block_view block)) ∷ stack_view stack))) }
{
    if part.elses >= LONGEST {
        return long_at(
            at.place,
            Frame::Control(ControlFrame::Else(part, e, block)),
            stack,
        );
    }
    goes(stack, Frame::Control(ControlFrame::Else(part, e, block)))
}

fn over_if(
    alloc: Global,
    part: IfPart,
    e: Expr,
    block: Block,
    other: Option<Stmt>,
    stack: Stack,
) -> Answer
    ensures value { Comes result (f.Over (f.AStmt (rows.if_of (if_part part) (expr_view e) (block_view block) (stmt_perhaps other))) (stack_view stack)) }
{
    match if_stmt(alloc, part.place, part.init, e, block, other) {
        Ok(s) => over(stack, Value::Stmt(s)),
        Err(error) => lost(error, stack),
    }
}

/// "else" (If | Block)
fn after_else(alloc: Global, at: At, part: IfPart, e: Expr, block: Block, stack: Stack) -> Answer
    ensures value { Comes result (rows.control_row (token_of at []) (f.AtElse (if_part part) (expr_view e) (block_view block)) (stack_view stack)) }
{
    let blocks = part.blocks;
    let elses = one_more(part.elses);
    let stack = stack.with(Frame::Control(ControlFrame::Other(part, e, block)))?;
    if at.is_word(Keyword::If) {
        return goes(
            stack,
            Frame::Control(ControlFrame::If(new_if(blocks, at.place, elses))),
        );
    }
    open_block(alloc, at, blocks, stack)
}

/// "for" [Expr | [Simple] ";" [Expr] ";" [Simple] | [Exprs ("=" | ":=")] "range" Expr] Block
fn for_head(alloc: Global, at: At, text: &[u8], part: ForPart, stack: Stack) -> Answer
    ensures value { Comes result (rows.control_row (token_of at text.now) (f.AtFor (for_part part)) (stack_view stack)) }
{
    if at.is(Operator::LeftBrace) {
        return for_block(alloc, at, part, None, None, None, stack);
    }
    if at.is_semicolon() {
        return goes(
            stack,
            Frame::Control(ControlFrame::ForCondition(part, None)),
        );
    }
    let c = Ctx::header(part.blocks);
    if at.is_word(Keyword::Range) {
        let frame = ControlFrame::Range(part, Vec::new(alloc), false);
        let stack = stack.with(Frame::Control(frame))?;
        return then_expr(c, stack);
    }
    let stack = stack.with(Frame::Control(ControlFrame::For(part)))?;
    begin_simple(alloc, at, text, c, Mode::For, stack)
}

fn for_block(
    alloc: Global,
    at: At,
    part: ForPart,
    init: Option<Stmt>,
    e: Option<Expr>,
    post: Option<Stmt>,
    stack: Stack,
) -> Answer
    ensures value { Comes result (rows.for_block (token_of at []) (for_part part) (stmt_perhaps init) (expr_perhaps e) (stmt_perhaps post) (stack_view stack)) }
{
    let stack = stack.with(Frame::Control(ControlFrame::ForBody(part, init, e, post)))?;
    open_block(alloc, at, part.blocks, stack)
}

fn for_condition(
    alloc: Global,
    at: At,
    text: &[u8],
    part: ForPart,
    init: Option<Stmt>,
    stack: Stack,
) -> Answer
    ensures value { Comes result (rows.control_row (token_of at text.now) (f.ForCondition (for_part part) (stmt_perhaps init)) (stack_view stack)) }
{
    if at.is_semicolon() {
        return goes(stack, Frame::Control(ControlFrame::Post(part, init, None)));
    }
    let c = Ctx::header(part.blocks);
    let stack = stack.with(Frame::Control(ControlFrame::ForCondition(part, init)))?;
    begin_expr(alloc, at, text, c, stack)
}

fn for_post(
    alloc: Global,
    at: At,
    text: &[u8],
    part: ForPart,
    init: Option<Stmt>,
    e: Option<Expr>,
    stack: Stack,
) -> Answer
    ensures value { Comes result (rows.control_row (token_of at text.now) (f.Post (for_part part) (stmt_perhaps init) (expr_perhaps e)) (stack_view stack)) }
{
    if at.is(Operator::LeftBrace) {
        return for_block(alloc, at, part, init, e, None, stack);
    }
    let c = Ctx::header(part.blocks);
    let stack = stack.with(Frame::Control(ControlFrame::Post(part, init, e)))?;
    begin_simple(alloc, at, text, c, Mode::Header, stack)
}

/// What a frame that waits for an expression does with it at the token.
pub fn control_meets_expr(
    alloc: Global,
    at: At,
    frame: ControlFrame,
    e: Expr,
    stack: Stack,
) -> Answer
    ensures value { Comes result (rows.control_meets_expr (token_of at []) (control_frame frame) (expr_view e) (stack_view stack)) }
{
    match frame {
        ControlFrame::Condition(part) => then_block(alloc, at, part, e, stack),
        ControlFrame::ForCondition(part, init) => after_for_condition(at, part, init, e, stack),
        ControlFrame::Range(part, left, fresh) => after_range(
            alloc, at, part, left, fresh, e, stack,
        ),
        other => stuck_with(Frame::Control(other), Value::Expr(e), stack),
    }
}

fn after_for_condition(at: At, part: ForPart, init: Option<Stmt>, e: Expr, stack: Stack) -> Answer
    ensures value { Comes result (rows.control_meets_expr (token_of at []) (f.ForCondition (for_part part) (stmt_perhaps init)) (expr_view e) (stack_view stack)) }
{
    if at.is_semicolon() {
        return goes(
            stack,
            Frame::Control(ControlFrame::Post(part, init, Some(e))),
        );
    }
    stuck_with(
        Frame::Control(ControlFrame::ForCondition(part, init)),
        Value::Expr(e),
        stack,
    )
}

/// After the expression of `range`: the block.
fn after_range(
    alloc: Global,
    at: At,
    part: ForPart,
    left: Vec<Expr>,
    fresh: bool,
    e: Expr,
    stack: Stack,
) -> Answer
    ensures value { Comes result (rows.control_meets_expr (token_of at []) (f.AtRange (for_part part) (exprs_in left.items) fresh) (expr_view e) (stack_view stack)) }
{
    let stack = stack.with(Frame::Control(ControlFrame::RangeBody(part, left, fresh, e)))?;
    open_block(alloc, at, part.blocks, stack)
}

/// What a frame that waits for a statement does with it at the token.
pub fn control_meets_stmt(
    alloc: Global,
    at: At,
    frame: ControlFrame,
    s: Stmt,
    stack: Stack,
) -> Answer
    ensures value { Comes result (rows.control_meets_stmt (token_of at []) (control_frame frame) (stmt_view s) (stack_view stack)) }
{
    match frame {
        ControlFrame::If(part) => after_if_simple(alloc, at, part, s, stack),
        ControlFrame::Other(part, e, block) => over_if(alloc, part, e, block, Some(s), stack),
        ControlFrame::For(part) => after_for_simple(alloc, at, part, s, stack),
        ControlFrame::Post(part, init, e) => for_block(alloc, at, part, init, e, Some(s), stack),
        other => stuck_with(Frame::Control(other), Value::Stmt(s), stack),
    }
}

fn after_for_simple(alloc: Global, at: At, part: ForPart, s: Stmt, stack: Stack) -> Answer
    ensures value { Comes result (rows.control_meets_stmt (token_of at []) (f.AtFor (for_part part)) (stmt_view s) (stack_view stack)) }
{
    if at.is_semicolon() {
        return goes(
            stack,
            Frame::Control(ControlFrame::ForCondition(part, Some(s))),
        );
    }
    match into_expr(s) {
        None => stuck(stack),
        Some(e) => for_block(alloc, at, part, None, Some(e), None, stack),
    }
}

/// `for x, y = range`, or with `:=`, at the token after it.
pub fn control_meets_ranging(
    alloc: Global,
    at: At,
    text: &[u8],
    frame: ControlFrame,
    left: Vec<Expr>,
    fresh: bool,
    stack: Stack,
) -> Answer
    ensures value { Comes result (rows.control_meets_ranging (token_of at text.now) (control_frame frame) (exprs_in left.items) fresh (stack_view stack)) }
{
    match frame {
        ControlFrame::For(part) => begin_range(alloc, at, text, part, left, fresh, stack),
        other => stuck_with(Frame::Control(other), Value::Ranging(left, fresh), stack),
    }
}

fn begin_range(
    alloc: Global,
    at: At,
    text: &[u8],
    part: ForPart,
    left: Vec<Expr>,
    fresh: bool,
    stack: Stack,
) -> Answer
    ensures value { Comes result (rows.control_meets_ranging (token_of at text.now) (f.AtFor (for_part part)) (exprs_in left.items) fresh (stack_view stack)) }
{
    let stack = stack.with(Frame::Control(ControlFrame::Range(part, left, fresh)))?;
    begin_expr(alloc, at, text, Ctx::header(part.blocks), stack)
}

/// What a frame that waits for a block does with it at the token.
pub fn control_meets_block(
    alloc: Global,
    at: At,
    frame: ControlFrame,
    block: Block,
    stack: Stack,
) -> Answer
    ensures value { Comes result (rows.control_meets_block (token_of at []) (control_frame frame) (block_view block) (stack_view stack)) }
{
    match frame {
        ControlFrame::Then(part, e) => after_then(alloc, at, part, e, block, stack),
        ControlFrame::Other(part, e, first) => over_else(alloc, part, e, first, block, stack),
        ControlFrame::ForBody(part, init, e, post) => over_for(
            alloc, part, init, e, post, block, stack,
        ),
        ControlFrame::RangeBody(part, left, fresh, e) => over_range(
            alloc, part, left, fresh, e, block, stack,
        ),
        other => stuck_with(Frame::Control(other), Value::Block(block), stack),
    }
}

/// An `if` whose `else` has the block.
fn over_else(
    alloc: Global,
    part: IfPart,
    e: Expr,
    first: Block,
    block: Block,
    stack: Stack,
) -> Answer
    ensures value { Comes result (f.Over (f.AStmt (rows.if_of (if_part part) (expr_view e) (block_view first) (t.AStmt (nodes.block_stmt (block_view block))))) (stack_view stack)) }
{
    match block_stmt(alloc, block) {
        Ok(s) => over_if(alloc, part, e, first, Some(s), stack),
        Err(error) => lost_at(
            error,
            Frame::Control(ControlFrame::Other(part, e, first)),
            stack,
        ),
    }
}

fn over_for(
    alloc: Global,
    part: ForPart,
    init: Option<Stmt>,
    e: Option<Expr>,
    post: Option<Stmt>,
    block: Block,
    stack: Stack,
) -> Answer
    ensures value { Comes result (f.Over (f.AStmt (t.ForStmt part.place (stmt_perhaps init) (expr_perhaps e) (stmt_perhaps post) (block_view block))) (stack_view stack)) }
{
    match for_stmt(alloc, part.place, init, e, post, block) {
        Ok(s) => over(stack, Value::Stmt(s)),
        Err(error) => lost(error, stack),
    }
}

fn over_range(
    alloc: Global,
    part: ForPart,
    left: Vec<Expr>,
    fresh: bool,
    e: Expr,
    block: Block,
    stack: Stack,
) -> Answer
    ensures value { Comes result (f.Over (f.AStmt (t.RangeStmt part.place (exprs_of (exprs_in left.items)) fresh (expr_view e) (block_view block))) (stack_view stack)) }
{
    match range(alloc, part.place, left, fresh, e, block) {
        Ok(s) => over(stack, Value::Stmt(s)),
        Err(error) => lost(error, stack),
    }
}
