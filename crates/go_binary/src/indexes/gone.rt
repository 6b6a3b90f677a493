//! What is let go.

use crate::indexes::kinds::{Edge, Index, Indexed, Valued};
use go_core::node::CoreExpr;
use go_operands::nodes::gone::gone_expr;
use go_operands::operands::boxes::gone_box;
use go_operands::operands::part::{Part, gone_part};

/// Lets what is indexed go.
pub fn gone_indexed(indexed: Indexed) {
    match indexed {
        Indexed::Text(core, _ty, _limit) => gone_expr(core),
        Indexed::Unbuilt => {}
        Indexed::Other => {}
        Indexed::Unfit(_flaws) => {}
    }
}

/// Lets an index go.
pub fn gone_index(index: Index) {
    match index {
        Index::Value(core, _value) => gone_expr(core),
        Index::None => {}
        Index::Unfit(_flaws) => {}
    }
}

/// Lets a bound go.
pub fn gone_edge(edge: Edge) {
    match edge {
        Edge::Open => {}
        Edge::At(_place, index) => gone_index(Box::into_inner(index)),
    }
}

/// Lets two bounds go.
pub fn gone_edges(low: Edge, high: Edge) {
    gone_edge(low);
    gone_edge(high);
}

/// Lets what is sliced and its bounds go.
pub fn gone_sliced(c: CoreExpr, low: Edge, high: Edge) {
    gone_expr(c);
    gone_edges(low, high);
}

/// Lets a bound with its value go, if there is one.
pub fn gone_valued(valued: Option<Valued>) {
    match valued {
        None => {}
        Some(
            Valued {
                place: _place,
                value,
            },
        ) => gone_box(value),
    }
}

/// Lets three bounds go.
pub fn gone_all(low: Option<Valued>, high: Option<Valued>, most: Option<Valued>) {
    gone_valued(low);
    gone_valued(high);
    gone_valued(most);
}

/// Lets a bound go, whatever it is.
pub fn gone_bound(part: Option<Box<Part>>) {
    match part {
        None => {}
        Some(part) => gone_part(Box::into_inner(part)),
    }
}
