//! Imports: none leads back to its package.
//!
//! Go, "Import declarations", "Program initialization".

ghost use Rattle.std.specs.Prelude.{◌≡◌, ◌<◌, Some, true, map};
ghost use Rattle.std.specs.List.{AllByRecursion};
ghost use Rattle.go_core.specs.CoreView.{package_row_view, program_view};
ghost use Rattle.go_is_sound.specs.Imports.{IsBelow, ImportsBelow, rank};

use gj_base::{NoMemory, Text};
use go_core::program::{PackageRow, Program};
use std::alloc::Global;

/// The rank of the first package with a path.
pub fn rank_of(rows: &[PackageRow], ranks: &[u64], path: &Text) -> Option<u64>
    ensures is { result ≡ rank (map package_row_view rows.now) ranks.now path.now }
{
    match rows.split_first() {
        Some((row, others)) => match ranks.split_first() {
            Some((found, more)) => {
                if row.path == *path {
                    return Some(*found);
                }
                rank_of(others, more, path)
            }
            None => None,
        },
        None => None,
    }
}

fn is_below(rows: &[PackageRow], ranks: &[u64], path: &Text, above: &Text) -> bool
    ensures is { result ≡ true → IsBelow (map package_row_view rows.now) ranks.now path.now above.now }
{
    match rank_of(rows, ranks, path) {
        Some(a) => match rank_of(rows, ranks, above) {
            Some(b) => a < b,
            None => false,
        },
        None => false,
    }
}

fn imports_below(rows: &[PackageRow], ranks: &[u64], row: &PackageRow) -> bool
    ensures is { result ≡ true → ImportsBelow (map package_row_view rows.now) ranks.now row.now }
{
    for path in &row.imports.items {
        if !is_below(rows, ranks, path, &row.path) {
            return false;
        }
    }
    true
}

/// Whether each package imports packages of the program alone, of lower ranks than its own.
pub fn are_ranked(p: &Program, ranks: &[u64]) -> bool
    ensures is { result ≡ true → AllByRecursion (ImportsBelow (program_view p.now).packages ranks.now) p.now.packages.items.items }
{
    for row in &p.packages.items {
        if !imports_below(p.packages.items.as_slice(), ranks, row) {
            return false;
        }
    }
    true
}

// ---- ranks, which are given freely

fn zeros(alloc: Global, count: usize) -> Result<Vec<u64>, NoMemory> {
    let mut ranks = Vec::new(alloc);
    for _ in 0..count {
        ranks.push(0)?;
    }
    Ok(ranks)
}

// Whether each package that a package imports has a rank above 0.
fn are_done(rows: &[PackageRow], ranks: &[u64], row: &PackageRow) -> bool {
    for path in &row.imports.items {
        match rank_of(rows, ranks, path) {
            Some(found) => {
                if found == 0 {
                    return false;
                }
            }
            None => return false,
        }
    }
    true
}

// The packages whose imports have ranks get ranks from this one on.
fn turn(rows: &[PackageRow], ranks: &mut [u64], rank: u64) {
    for i in 0..rows.len() {
        if i < ranks.len() && ranks[i] == 0 && are_done(rows, ranks, &rows[i]) {
            ranks[i] = rank.saturating_add(i as u64);
        }
    }
}

/// Ranks in which packages come after those that they import, where there are such ones.
pub fn ranks_of(alloc: Global, rows: &[PackageRow]) -> Result<Vec<u64>, NoMemory> {
    let mut ranks = zeros(alloc, rows.len())?;
    let mut rank: u64 = 1;
    for _ in 0..rows.len() {
        turn(rows, ranks.as_mut_slice(), rank);
        rank = rank.saturating_add(rows.len() as u64);
    }
    Ok(ranks)
}
