//! `switch` and `select`.

ghost use Rattle.std.specs.Prelude.{◌≡◌, ◌∷◌, [], IfOk};
ghost use Rattle.go_syntax.specs.View.{expr_view, stmt_view};
ghost use Rattle.go_syntax.specs.declared.operator.Operator.TheVariants as o;
ghost use Rattle.go_grammar.specs.Frames as f;
ghost use Rattle.go_grammar.specs.ExprSteps as steps;
ghost use Rattle.go_grammar.specs.StmtSteps as rows;
ghost use Rattle.go_grammar.specs.Nodes as nodes;
ghost use Rattle.go_frames.specs.FrameView.{Comes, token_of, exprs_in, stmts_in, stmt_perhaps, subject_view, switch_part, select_part, switch_frame, stack_view};
ghost use Rattle.go_control_steps.specs.Parts.{after_cases};

use gj_base::{NoMemory, Place};
use go_frames::begins::expr::then_expr;
use go_frames::begins::lists::{with_clause, with_comm, with_expr, with_stmt};
use go_frames::begins::simple::begin_simple;
use go_frames::begins::stmt::begin_stmt;
use go_frames::ends::lost::{lost, lost_at};
use go_frames::ends::refused::{deep, deep_at, stuck, stuck_at, stuck_with};
use go_frames::ends::stmt::lost_header;
use go_frames::frames::at::At;
use go_frames::frames::ctx::{Ctx, DEEPEST};
use go_frames::frames::form::{into_expr, select_stmt, switch, type_switch};
use go_frames::frames::frame::{Frame, Mode, SelectPart, Subject, SwitchFrame, SwitchPart, Value};
use go_frames::frames::stack::{Answer, Stack, done, goes};
use go_syntax::tree::{Expr, Name, Stmt};
use go_syntax::{Keyword, Operator};
use std::alloc::Global;

/// What the top frame does at the token.
pub fn switch_row(alloc: Global, at: At, text: &[u8], frame: SwitchFrame, stack: Stack) -> Answer
    ensures value { Comes result (rows.switch_row (token_of at text.now) (switch_frame frame) (stack_view stack)) }
{
    match frame {
        SwitchFrame::Head(blocks, place) => switch_head(alloc, at, text, blocks, place, stack),
        SwitchFrame::Tag(blocks, place, init) => switch_tag(
            alloc, at, text, blocks, place, init, stack,
        ),
        SwitchFrame::GuardEnd(blocks, place, init, name, e) => {
            open_switch(
                alloc,
                at,
                blocks,
                place,
                init,
                Subject::Guard(name, e),
                stack,
            )
        }
        SwitchFrame::Clauses(part) => clauses(alloc, at, part, stack),
        SwitchFrame::Default(part, place) => {
            at_colon(
                at,
                SwitchFrame::Body(part, place, Vec::new(alloc), Vec::new(alloc)),
                stack,
            )
        }
        SwitchFrame::Body(part, place, es, stmts) => clause_body(
            alloc, at, text, part, place, es, stmts, stack,
        ),
        SwitchFrame::Select(blocks, place) => open_select(alloc, at, blocks, place, stack),
        SwitchFrame::Comms(part) => comms(alloc, at, part, stack),
        SwitchFrame::Comm(part, place) => comm_case(alloc, at, text, part, place, stack),
        SwitchFrame::CommDefault(part, place) => {
            at_colon(
                at,
                SwitchFrame::CommBody(part, place, None, Vec::new(alloc)),
                stack,
            )
        }
        SwitchFrame::CommBody(part, place, comm, stmts) => {
            comm_body(alloc, at, text, part, place, comm, stmts, stack)
        }
        other => stuck_at(Frame::Switch(other), stack),
    }
}

/// The `:` before the statements of a clause.
fn at_colon(at: At, frame: SwitchFrame, stack: Stack) -> Answer
    ensures value { Comes result (steps.if_op o.Colon (token_of at []) (f.Goes (f.OfSwitch (switch_frame frame) ∷ stack_view stack)) f.Stuck) }
{
    if at.is(Operator::Colon) {
        return goes(stack, Frame::Switch(frame));
    }
    stuck_at(Frame::Switch(frame), stack)
}

/// Whether the token can end a clause.
fn ends_clause(at: At) -> bool
    ensures value { result ≡ rows.ends_clause (token_of at []) }
{
    at.is_word(Keyword::Case) || at.is_word(Keyword::Default) || at.is(Operator::RightBrace)
}

/// "switch" [[Simple] ";"] [Expr | [name ":="] Expr "." "(" "type" ")"] "{"
fn switch_head(
    alloc: Global,
    at: At,
    text: &[u8],
    blocks: u32,
    place: Place,
    stack: Stack,
) -> Answer
    ensures value { Comes result (rows.switch_row (token_of at text.now) (f.SwitchHead blocks place) (stack_view stack)) }
{
    if at.is_semicolon() {
        return goes(stack, Frame::Switch(SwitchFrame::Tag(blocks, place, None)));
    }
    if at.is(Operator::LeftBrace) {
        return open_switch(alloc, at, blocks, place, None, Subject::Tag(None), stack);
    }
    let stack = stack.with(Frame::Switch(SwitchFrame::Head(blocks, place)))?;
    begin_simple(alloc, at, text, Ctx::header(blocks), Mode::Switch, stack)
}

fn switch_tag(
    alloc: Global,
    at: At,
    text: &[u8],
    blocks: u32,
    place: Place,
    init: Option<Stmt>,
    stack: Stack,
) -> Answer
    ensures value { Comes result (rows.switch_row (token_of at text.now) (f.SwitchTag blocks place (stmt_perhaps init)) (stack_view stack)) }
{
    if at.is(Operator::LeftBrace) {
        return open_switch(alloc, at, blocks, place, init, Subject::Tag(None), stack);
    }
    let stack = stack.with(Frame::Switch(SwitchFrame::Tag(blocks, place, init)))?;
    begin_simple(alloc, at, text, Ctx::header(blocks), Mode::Tag, stack)
}

/// The `{` of a switch.
fn open_switch(
    alloc: Global,
    at: At,
    blocks: u32,
    place: Place,
    init: Option<Stmt>,
    subject: Subject,
    stack: Stack,
) -> Answer
    ensures value { Comes result (rows.open_switch (token_of at []) blocks place (stmt_perhaps init) (subject_view subject) (stack_view stack)) }
{
    if !at.is(Operator::LeftBrace) {
        let part = new_switch(alloc, blocks, place, init, subject);
        return stuck_at(Frame::Switch(SwitchFrame::Clauses(part)), stack);
    }
    if blocks >= DEEPEST {
        let part = new_switch(alloc, blocks, place, init, subject);
        return deep_at(Frame::Switch(SwitchFrame::Clauses(part)), stack);
    }
    let part = new_switch(alloc, blocks + 1, place, init, subject);
    goes(stack, Frame::Switch(SwitchFrame::Clauses(part)))
}

/// A switch with no clause yet.
fn new_switch(
    alloc: Global,
    blocks: u32,
    place: Place,
    init: Option<Stmt>,
    subject: Subject,
) -> SwitchPart
    ensures value { switch_part result ≡ record { blocks = blocks; place = place; init = stmt_perhaps init; subject = subject_view subject; clauses = [] } }
{
    SwitchPart {
        blocks,
        place,
        init,
        subject,
        clauses: Vec::new(alloc),
    }
}

/// {("case" Exprs | "default") ":" List} "}"
fn clauses(alloc: Global, at: At, part: SwitchPart, stack: Stack) -> Answer
    ensures value { Comes result (rows.clauses (token_of at []) (switch_part part) (stack_view stack)) }
{
    if at.is_word(Keyword::Case) {
        let c = Ctx::new(part.blocks);
        let frame = SwitchFrame::Case(part, at.place, Vec::new(alloc));
        let stack = stack.with(Frame::Switch(frame))?;
        return then_expr(c, stack);
    }
    if at.is_word(Keyword::Default) {
        return goes(stack, Frame::Switch(SwitchFrame::Default(part, at.place)));
    }
    if at.is(Operator::RightBrace) {
        return over_switch(alloc, part, stack);
    }
    stuck_at(Frame::Switch(SwitchFrame::Clauses(part)), stack)
}

/// The `}` of a switch.
fn over_switch(alloc: Global, part: SwitchPart, stack: Stack) -> Answer
    ensures value { Comes result (f.Goes (f.Done (f.AStmt (rows.switch_of (switch_part part) (subject_view part.subject))) ∷ stack_view stack)) }
{
    match switch_stmt(alloc, part) {
        Ok(s) => done(stack, Value::Stmt(s)),
        Err(error) => lost(error, stack),
    }
}

fn switch_stmt(alloc: Global, part: SwitchPart) -> Result<Stmt, NoMemory>
    ensures value { IfOk result (λ s. stmt_view s ≡ rows.switch_of (switch_part part) (subject_view part.subject)) }
{
    let SwitchPart {
        blocks: _,
        place,
        init,
        subject,
        clauses,
    } = part;
    match subject {
        Subject::Tag(e) => switch(alloc, place, init, e, clauses),
        Subject::Guard(name, e) => type_switch(alloc, place, init, name, e, clauses),
    }
}

/// The statements of a clause.
fn clause_body(
    alloc: Global,
    at: At,
    text: &[u8],
    part: SwitchPart,
    place: Place,
    es: Vec<Expr>,
    stmts: Vec<Stmt>,
    stack: Stack,
) -> Answer
    ensures value { Comes result (rows.switch_row (token_of at text.now) (f.ClauseBody (switch_part part) place (exprs_in es.items) (stmts_in stmts.items)) (stack_view stack)) }
{
    if ends_clause(at) || at.is_semicolon() {
        return after_clause_stmt(alloc, at, part, place, es, stmts, stack);
    }
    let blocks = part.blocks;
    let stack = stack.with(Frame::Switch(SwitchFrame::Body(part, place, es, stmts)))?;
    begin_stmt(alloc, at, text, blocks, 0, stack)
}

/// After a statement of a clause: `;`, or the clause's end.
fn after_clause_stmt(
    alloc: Global,
    at: At,
    part: SwitchPart,
    place: Place,
    es: Vec<Expr>,
    stmts: Vec<Stmt>,
    stack: Stack,
) -> Answer
    ensures value { Comes result (rows.after_clause_stmt (token_of at []) (switch_part part) place (exprs_in es.items) (stmts_in stmts.items) (stack_view stack)) }
{
    if at.is_semicolon() {
        return goes(
            stack,
            Frame::Switch(SwitchFrame::Body(part, place, es, stmts)),
        );
    }
    match with_clause(part.clauses, place, es, stmts) {
        Ok(all) => {
            let part = SwitchPart {
                blocks: part.blocks,
                place: part.place,
                init: part.init,
                subject: part.subject,
                clauses: all,
            };
            clauses(alloc, at, part, stack)
        }
        Err(error) => lost_header(error, part.init, part.subject, stack),
    }
}

/// The simple statement of a clause of a `select`.
fn comm_case(
    alloc: Global,
    at: At,
    text: &[u8],
    part: SelectPart,
    place: Place,
    stack: Stack,
) -> Answer
    ensures value { Comes result (rows.switch_row (token_of at text.now) (f.CommCase (select_part part) place) (stack_view stack)) }
{
    let c = Ctx::new(part.blocks);
    let stack = stack.with(Frame::Switch(SwitchFrame::Comm(part, place)))?;
    begin_simple(alloc, at, text, c, Mode::Header, stack)
}

fn open_select(alloc: Global, at: At, blocks: u32, place: Place, stack: Stack) -> Answer
    ensures value { Comes result (rows.switch_row (token_of at []) (f.SelectOpen blocks place) (stack_view stack)) }
{
    if !at.is(Operator::LeftBrace) {
        return stuck(stack);
    }
    if blocks >= DEEPEST {
        return deep(stack);
    }
    let part = SelectPart {
        blocks: blocks + 1,
        place,
        comms: Vec::new(alloc),
    };
    goes(stack, Frame::Switch(SwitchFrame::Comms(part)))
}

/// {("case" Simple | "default") ":" List} "}"
fn comms(alloc: Global, at: At, part: SelectPart, stack: Stack) -> Answer
    ensures value { Comes result (rows.comms (token_of at []) (select_part part) (stack_view stack)) }
{
    if at.is_word(Keyword::Case) {
        return goes(stack, Frame::Switch(SwitchFrame::Comm(part, at.place)));
    }
    if at.is_word(Keyword::Default) {
        return goes(
            stack,
            Frame::Switch(SwitchFrame::CommDefault(part, at.place)),
        );
    }
    if at.is(Operator::RightBrace) {
        return match select_stmt(alloc, part.place, part.comms) {
            Ok(s) => done(stack, Value::Stmt(s)),
            Err(error) => lost(error, stack),
        };
    }
    stuck_at(Frame::Switch(SwitchFrame::Comms(part)), stack)
}

fn comm_body(
    alloc: Global,
    at: At,
    text: &[u8],
    part: SelectPart,
    place: Place,
    comm: Option<Stmt>,
    stmts: Vec<Stmt>,
    stack: Stack,
) -> Answer
    ensures value { Comes result (rows.switch_row (token_of at text.now) (f.CommBody (select_part part) place (stmt_perhaps comm) (stmts_in stmts.items)) (stack_view stack)) }
{
    if ends_clause(at) || at.is_semicolon() {
        return after_comm_stmt(alloc, at, part, place, comm, stmts, stack);
    }
    let blocks = part.blocks;
    let stack = stack.with(Frame::Switch(SwitchFrame::CommBody(part, place, comm, stmts)))?;
    begin_stmt(alloc, at, text, blocks, 0, stack)
}

fn after_comm_stmt(
    alloc: Global,
    at: At,
    part: SelectPart,
    place: Place,
    said: Option<Stmt>,
    stmts: Vec<Stmt>,
    stack: Stack,
) -> Answer
    ensures value { Comes result (rows.after_comm_stmt (token_of at []) (select_part part) place (stmt_perhaps said) (stmts_in stmts.items) (stack_view stack)) }
{
    if at.is_semicolon() {
        return goes(
            stack,
            Frame::Switch(SwitchFrame::CommBody(part, place, said, stmts)),
        );
    }
    match with_comm(part.comms, place, said, stmts) {
        Ok(all) => {
            let part = SelectPart {
                blocks: part.blocks,
                place: part.place,
                comms: all,
            };
            comms(alloc, at, part, stack)
        }
        Err(error) => lost(error, stack),
    }
}

/// What a frame that waits for an expression does with it at the token.
pub fn switch_meets_expr(alloc: Global, at: At, frame: SwitchFrame, e: Expr, stack: Stack) -> Answer
    ensures value { Comes result (rows.switch_meets_expr (token_of at []) (switch_frame frame) (expr_view e) (stack_view stack)) }
{
    match frame {
        SwitchFrame::Case(part, place, es) => after_case(alloc, at, part, place, es, e, stack),
        other => stuck_with(Frame::Switch(other), Value::Expr(e), stack),
    }
}

fn after_case(
    alloc: Global,
    at: At,
    part: SwitchPart,
    place: Place,
    es: Vec<Expr>,
    e: Expr,
    stack: Stack,
) -> Answer
    ensures value { Comes result (rows.switch_meets_expr (token_of at []) (f.Case (switch_part part) place (exprs_in es.items)) (expr_view e) (stack_view stack)) }
{
    match with_expr(es, e) {
        Ok(es) => after_cases(alloc, at, part, place, es, stack),
        Err(error) => lost_at(error, Frame::Switch(SwitchFrame::Clauses(part)), stack),
    }
}

fn after_cases(
    alloc: Global,
    at: At,
    part: SwitchPart,
    place: Place,
    es: Vec<Expr>,
    stack: Stack,
) -> Answer
    ensures value { Comes result (after_cases (token_of at []) (switch_part part) place (exprs_in es.items) (stack_view stack)) }
{
    if at.is(Operator::Comma) {
        let c = Ctx::new(part.blocks);
        let stack = stack.with(Frame::Switch(SwitchFrame::Case(part, place, es)))?;
        return then_expr(c, stack);
    }
    at_colon(
        at,
        SwitchFrame::Body(part, place, es, Vec::new(alloc)),
        stack,
    )
}

/// What a frame that waits for a statement does with it at the token.
pub fn switch_meets_stmt(alloc: Global, at: At, frame: SwitchFrame, s: Stmt, stack: Stack) -> Answer
    ensures value { Comes result (rows.switch_meets_stmt (token_of at []) (switch_frame frame) (stmt_view s) (stack_view stack)) }
{
    match frame {
        SwitchFrame::Head(blocks, place) => after_switch_simple(alloc, at, blocks, place, s, stack),
        SwitchFrame::Tag(blocks, place, init) => after_subject(
            alloc, at, blocks, place, init, s, stack,
        ),
        SwitchFrame::Body(part, place, es, stmts) => in_clause(
            alloc, at, part, place, es, stmts, s, stack,
        ),
        SwitchFrame::Comm(part, place) => {
            at_colon(
                at,
                SwitchFrame::CommBody(part, place, Some(s), Vec::new(alloc)),
                stack,
            )
        }
        SwitchFrame::CommBody(part, place, comm, stmts) => in_comm(
            alloc, at, part, place, comm, stmts, s, stack,
        ),
        other => stuck_with(Frame::Switch(other), Value::Stmt(s), stack),
    }
}

/// A statement of a clause.
fn in_clause(
    alloc: Global,
    at: At,
    part: SwitchPart,
    place: Place,
    es: Vec<Expr>,
    stmts: Vec<Stmt>,
    s: Stmt,
    stack: Stack,
) -> Answer
    ensures value { Comes result (rows.switch_meets_stmt (token_of at []) (f.ClauseBody (switch_part part) place (exprs_in es.items) (stmts_in stmts.items)) (stmt_view s) (stack_view stack)) }
{
    match with_stmt(stmts, s) {
        Ok(stmts) => after_clause_stmt(alloc, at, part, place, es, stmts, stack),
        Err(error) => {
            let frame = SwitchFrame::Case(part, place, es);
            lost_at(error, Frame::Switch(frame), stack)
        }
    }
}

/// A statement of a clause of a `select`.
fn in_comm(
    alloc: Global,
    at: At,
    part: SelectPart,
    place: Place,
    said: Option<Stmt>,
    stmts: Vec<Stmt>,
    s: Stmt,
    stack: Stack,
) -> Answer
    ensures value { Comes result (rows.switch_meets_stmt (token_of at []) (f.CommBody (select_part part) place (stmt_perhaps said) (stmts_in stmts.items)) (stmt_view s) (stack_view stack)) }
{
    match with_stmt(stmts, s) {
        Ok(stmts) => after_comm_stmt(alloc, at, part, place, said, stmts, stack),
        Err(error) => {
            let frame = SwitchFrame::CommBody(part, place, said, Vec::new(alloc));
            lost_at(error, Frame::Switch(frame), stack)
        }
    }
}

fn after_switch_simple(
    alloc: Global,
    at: At,
    blocks: u32,
    place: Place,
    s: Stmt,
    stack: Stack,
) -> Answer
    ensures value { Comes result (rows.switch_meets_stmt (token_of at []) (f.SwitchHead blocks place) (stmt_view s) (stack_view stack)) }
{
    if at.is_semicolon() {
        return goes(
            stack,
            Frame::Switch(SwitchFrame::Tag(blocks, place, Some(s))),
        );
    }
    after_subject(alloc, at, blocks, place, None, s, stack)
}

fn after_subject(
    alloc: Global,
    at: At,
    blocks: u32,
    place: Place,
    init: Option<Stmt>,
    s: Stmt,
    stack: Stack,
) -> Answer
    ensures value { Comes result (rows.switch_with (token_of at []) blocks place (stmt_perhaps init) (nodes.expr_in (stmt_view s)) (stack_view stack)) }
{
    match into_expr(s) {
        None => stuck_at(Frame::Switch(SwitchFrame::Tag(blocks, place, init)), stack),
        Some(e) => open_switch(alloc, at, blocks, place, init, Subject::Tag(Some(e)), stack),
    }
}

/// What a frame that waits for a guard does with it at the token.
pub fn switch_meets_guard(
    at: At,
    frame: SwitchFrame,
    name: Option<Name>,
    e: Expr,
    stack: Stack,
) -> Answer
    ensures value { Comes result (rows.guard_meets_switch (token_of at []) (switch_frame frame) name (expr_view e) (stack_view stack)) }
{
    match frame {
        SwitchFrame::Head(blocks, place) => {
            close_guard(
                at,
                SwitchFrame::GuardEnd(blocks, place, None, name, e),
                stack,
            )
        }
        SwitchFrame::Tag(blocks, place, init) => {
            close_guard(
                at,
                SwitchFrame::GuardEnd(blocks, place, init, name, e),
                stack,
            )
        }
        other => stuck_with(Frame::Switch(other), Value::Guard(name, e), stack),
    }
}

fn close_guard(at: At, frame: SwitchFrame, stack: Stack) -> Answer
    ensures value { Comes result (steps.if_op o.RightParen (token_of at []) (f.Goes (f.OfSwitch (switch_frame frame) ∷ stack_view stack)) f.Stuck) }
{
    if at.is(Operator::RightParen) {
        return goes(stack, Frame::Switch(frame));
    }
    stuck_at(Frame::Switch(frame), stack)
}
