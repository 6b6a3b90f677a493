//! What is around a statement.

use gj_base::Place;
use go_type::types::TypeId;

/// The function's results, if they are typed, and whether they have names; where those labels of its
/// body stand that have a fault; and where the function stands, if it is one too many.
#[derive(Clone, Copy)]
pub struct Around<'a> {
    pub results: Option<&'a [TypeId]>,
    pub named: bool,
    pub wrong_labels: &'a [Place],
    pub too_far: Option<Place>,
}
