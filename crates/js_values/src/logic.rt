//! `&&` and `||`: Go specification (as of Go 1.17), "Logical operators". The right side is evaluated only
//! where the left one doesn't decide. A machine goes round it by a case, since it may be left there.

ghost use Rattle.js_pool.specs.Stands.{Grows, Builds1};
ghost use Rattle.js_values.specs.Logic.{side_test, BeginsPlain, BeginsLogic, EndsPlain, EndsLogic};

use js_body::Body;
use js_pool::{ExprId, Mark, Pool};

/// What stands before the right side.
#[derive(Clone, Copy)]
pub struct Logic {
    mark: Mark,
    test: ExprId,
    both: bool,
    end: u32,
}

/// Begins the right side, the last value being the left one; it decides where it isn't `goes_on`.
pub fn begin_logic(b: &mut Body<'_>, goes_on: bool) -> Logic
    ensures { BeginsLogic b.old b.new result goes_on }
{
    b.settle();
    let x = b.pop();
    if b.plain {
        begin_plain(b, x.e, goes_on)
    } else {
        begin_cases(b, x.e, goes_on)
    }
}

fn begin_plain(b: &mut Body<'_>, x: ExprId, goes_on: bool) -> Logic
    ensures { BeginsPlain b.old b.new x result goes_on }
{
    let test = side_test(&mut b.pool, goes_on, x);
    let mark = b.pool.open();
    Logic {
        mark,
        test,
        both: goes_on,
        end: 0,
    }
}

fn side_test(p: &mut Pool, goes_on: bool, x: ExprId) -> ExprId
    ensures { Builds1 p.old p.new result x (side_test goes_on) }
{
    if goes_on { x } else { p.not(x) }
}

fn begin_cases(b: &mut Body<'_>, x: ExprId, goes_on: bool) -> Logic
    ensures { Grows b.old.pool b.new.pool }
{
    let end = b.fresh(1);
    go_round(b, x, goes_on, end);
    let mark = b.pool.open();
    Logic {
        mark,
        test: x,
        both: goes_on,
        end,
    }
}

fn go_round(b: &mut Body<'_>, x: ExprId, goes_on: bool, end: u32)
    ensures { Grows b.old.pool b.new.pool }
{
    if goes_on {
        b.jump_unless(x, end);
    } else {
        b.jump_if(x, end);
    }
}

/// Ends the right side, which is the last value.
pub fn end_logic(b: &mut Body<'_>, l: Logic)
    ensures { EndsLogic b.old b.new l }
{
    b.settle();
    if b.plain {
        end_plain(b, l);
    } else {
        b.mark(l.end);
    }
}

fn end_plain(b: &mut Body<'_>, l: Logic)
    ensures { EndsPlain b.old b.new l }
{
    let block = b.pool.close(l.mark);
    if !b.join(block, l.both) {
        b.pool.when(l.test, block);
    }
}
