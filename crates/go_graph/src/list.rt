//! Lists that are read and set where they reach so far.

ghost use Rattle.std.specs.Prelude.{◌≡◌, get_or, slice_get, map, []};
ghost use Rattle.go_graph.specs.Cycle.{lists};

/// What stands there, or 0.
pub fn at(xs: &[usize], i: usize) -> usize
    ensures value { result ≡ get_or xs.now i 0 }
{
    if i < xs.len() {
        return xs[i];
    }
    0
}

/// Sets what stands there, if something does.
pub fn set(xs: &mut Vec<usize>, i: usize, x: usize) {
    if i < xs.len() {
        xs[i] = x;
    }
}

/// The node to which this edge of a node leads, if the node has so many.
pub fn edge_at(edges: &[Vec<usize>], node: usize, edge: usize) -> Option<usize>
    ensures value { result ≡ slice_get (get_or (lists edges.now) node []) edge }
{
    if node < edges.len() {
        return edges[node].get(edge).copied();
    }
    None
}
