//! Frames: the array that a maker gives.

use go_core::program::Func;
use go_core::tree::FuncId;
use js_body::Body;
use js_body::frame::BEGINNING;
use js_pool::{ExprId, Mark, Name, Names};

/// Begins a frame of a machine: its head, above the frame `$u`.
pub fn begin_frame(b: &mut Body<'_>, machine: Name) -> Mark {
    let mark = b.pool.open_list();
    let machine = b.pool.named(machine);
    b.pool.item(machine);
    let n = b.pool.num(BEGINNING as u64);
    b.pool.item(n);
    let below = b.pool.name(b"$u");
    b.pool.item(below);
    let none = b.pool.null();
    b.pool.item(none);
    let normal = b.pool.num(0);
    b.pool.item(normal);
    b.pool.item(none);
    b.pool.item(none);
    b.pool.item(none);
    mark
}

/// Ends a frame with so many empty slots.
pub fn end_frame(b: &mut Body<'_>, mark: Mark, empty: u32) -> ExprId {
    let none = b.pool.null();
    for _ in 0..empty {
        b.pool.item(none);
    }
    let items = b.pool.close_list(mark);
    b.pool.array(items)
}

/// The frame of a function that is the present one, once its machine is done and all slots are known.
pub fn frame(b: &mut Body<'_>, id: FuncId, f: &Func) -> ExprId {
    let mark = begin_frame(b, Name::Numbered(b"$m", id.0));
    add_vars(b, id, f);
    for i in 0..f.captured.items.len() {
        let held = b.pool.name(b"$c");
        let e = b.pool.at(held, (i as u64).saturating_add(1));
        b.pool.item(e);
    }
    let full = f.vars.items.len().saturating_add(f.captured.items.len());
    let full = if full < 4294967295 {
        full as u32
    } else {
        4294967295
    };
    let empty = b
        .next_slot
        .saturating_sub(full.saturating_add(js_body::frame::HEAD));
    end_frame(b, mark, empty)
}

// What stands in the slots of variables at first: operands, results at zero, and nothing yet.
fn add_vars(b: &mut Body<'_>, id: FuncId, f: &Func) {
    let params = b.facts.param_count(id);
    let set = params.saturating_add(f.sig.results.as_slice().len());
    let mut i: u32 = 0;
    for v in f.vars.items.as_slice() {
        let h = b.home(v.id);
        let at = i as usize;
        let e = if at >= set {
            b.pool.null()
        } else {
            let value = if at >= params {
                b.zero(h.ty)
            } else {
                operand(b, i)
            };
            b.fresh_var(h.boxed, value)
        };
        b.pool.item(e);
        i = i.saturating_add(1);
    }
}

/// The operand of a maker with a number.
pub fn operand(b: &mut Body<'_>, i: u32) -> ExprId {
    b.pool.name_of(b"$", i)
}

/// The parameters of a maker: the frame below, where it makes a frame; what is held; operands from a number on.
pub fn maker_params(b: &mut Body<'_>, makes_frame: bool, from: usize, params: usize) -> Names {
    let mark = b.pool.open_params();
    if makes_frame {
        b.pool.param(Name::Word(b"$u"));
    }
    b.pool.param(Name::Word(b"$c"));
    for i in from..params {
        let n = if i < 4294967295 { i as u32 } else { 0 };
        b.pool.param(Name::Numbered(b"$", n));
    }
    b.pool.close_params(mark)
}
