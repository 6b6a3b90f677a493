//! The order of packages by their paths.

use crate::program::{Program, Target};

/// Gives each package its place in the byte order of the paths. The root's path is `main` here, and the
/// root stands before another package of this path.
pub fn rank(p: &mut Program) {
    let mut next = 0usize;
    let mut is_root_ranked = false;
    for (path, number) in &p.numbers {
        if !is_root_ranked && path.as_bytes() >= b"main".as_slice() {
            set_rank(&mut p.packages, 0, next);
            next = next.saturating_add(1);
            is_root_ranked = true;
        }
        if let Some(row) = p.paths.get(*number) {
            if let Target::Package(package) = row.target {
                set_rank(&mut p.packages, package, next);
                next = next.saturating_add(1);
            }
        }
    }
    if !is_root_ranked {
        set_rank(&mut p.packages, 0, next);
    }
}

fn set_rank(packages: &mut Vec<crate::program::PackageRow>, package: usize, rank: usize) {
    if let Some(row) = packages.get_mut(package) {
        row.rank = rank;
    }
}
