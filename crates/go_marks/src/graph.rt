//! A graph whose marked nodes mark those that their edges lead to.

use gj_base::NoMemory;
use std::alloc::Global;

/// An edge, and the next one of its node.
#[derive(Clone, Copy)]
struct Edge {
    to: usize,
    next: usize,
}

/// Nodes by number, each with its edges and whether it is marked.
#[derive(Drop)]
pub struct Graph {
    /// The first edge of each node by its number, from 1 on, or 0.
    first: Vec<usize>,
    marked: Vec<bool>,
    edges: Vec<Edge>,
    work: Vec<usize>,
}

impl Graph {
    /// No node.
    pub fn new(alloc: Global) -> Graph {
        Graph {
            first: Vec::new(alloc),
            marked: Vec::new(alloc),
            edges: Vec::new(alloc),
            work: Vec::new(alloc),
        }
    }

    /// One more node, which is not marked: its number.
    pub fn add_node(&mut self) -> Result<usize, NoMemory> {
        let n = self.first.len();
        self.first.push(0)?;
        self.marked.push(false)?;
        Ok(n)
    }

    /// Where one node is marked, another is.
    pub fn add_edge(&mut self, from: usize, to: usize) -> Result<(), NoMemory> {
        if from >= self.first.len() {
            return Ok(());
        }
        let next = self.first[from];
        self.edges.push(Edge { to, next })?;
        self.first[from] = self.edges.len();
        Ok(())
    }

    /// Marks a node, whose edges are followed later.
    pub fn mark(&mut self, node: usize) -> Result<(), NoMemory> {
        if node < self.marked.len() && !self.marked[node] {
            self.marked[node] = true;
            self.work.push(node)?;
        }
        Ok(())
    }

    /// Whether a node is marked.
    pub fn is_marked(&self, node: usize) -> bool {
        node < self.marked.len() && self.marked[node]
    }

    /// Marks all that marked nodes lead to.
    pub fn spread(&mut self) -> Result<(), NoMemory> {
        for _ in 0..u64::MAX {
            let Some(node) = self.work.pop() else {
                return Ok(());
            };
            self.follow(node)?;
        }
        Ok(())
    }

    fn first_of(&self, node: usize) -> usize {
        if node < self.first.len() {
            return self.first[node];
        }
        0
    }

    fn follow(&mut self, node: usize) -> Result<(), NoMemory> {
        let mut at = self.first_of(node);
        for _ in 0..u64::MAX {
            if at == 0 || at > self.edges.len() {
                return Ok(());
            }
            let edge = self.edges[at - 1];
            self.mark(edge.to)?;
            at = edge.next;
        }
        Ok(())
    }
}
