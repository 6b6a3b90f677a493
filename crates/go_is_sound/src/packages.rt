//! Packages: their functions `init`, their imports and their paths.
//!
//! Go, "Packages", "Package initialization".

ghost use Rattle.std.specs.Prelude.{◌≡◌, IfOk, true, false, map, All, AllPairs};
ghost use Rattle.std.specs.List.{AllByRecursion};
ghost use Rattle.go_core.specs.CoreView.{package_row_view, program_view};
ghost use Rattle.go_core.specs.SoundProgram.{DifferInPath, SoundPackage};
ghost use Rattle.go_is_sound.specs.Facts.{Holds};
ghost use Rattle.go_is_sound.specs.Packages.{HasInits, PathDiffers};

use crate::facts::Facts;
use crate::functions::is_plain_func;
use crate::imports::{are_ranked, ranks_of};
use gj_base::NoMemory;
use go_core::program::{PackageRow, Program};
use std::alloc::Global;

fn has_inits(facts: &Facts, p: &Program, row: &PackageRow) -> bool
    ensures is { Holds p.now facts.now → result ≡ true → HasInits p.now row.now }
{
    for id in &row.inits.items {
        if !is_plain_func(facts, p, *id) {
            return false;
        }
    }
    true
}

fn all_have_inits(facts: &Facts, p: &Program) -> bool
    ensures is { Holds p.now facts.now → result ≡ true → AllByRecursion (HasInits p.now) p.now.packages.items.items }
{
    for row in &p.packages.items {
        if !has_inits(facts, p, row) {
            return false;
        }
    }
    true
}

fn same_path(a: &PackageRow, b: &PackageRow) -> bool
    ensures is { result ≡ false → PathDiffers a.now b.now }
{
    a.path == b.path
}

fn is_new_path(row: &PackageRow, others: &[PackageRow]) -> bool
    ensures is { result ≡ true → AllByRecursion (PathDiffers row.now) others.now }
{
    for other in others {
        if same_path(row, other) {
            return false;
        }
    }
    true
}

// Whether no two packages have one path.
fn paths_differ(rows: &[PackageRow]) -> bool
    ensures is { result ≡ true → AllPairs DifferInPath (map package_row_view rows.now) }
{
    match rows.split_first() {
        Some((row, others)) => is_new_path(row, others) && paths_differ(others),
        None => true,
    }
}

fn are_sound(facts: &Facts, p: &Program, ranks: &[u64]) -> bool
    ensures is { Holds p.now facts.now → result ≡ true → All (SoundPackage (program_view p.now)) (program_view p.now).packages }
{
    are_ranked(p, ranks) && all_have_inits(facts, p)
}

/// Whether the packages are sound: what they import and initialise.
pub fn packages_are_sound(alloc: Global, facts: &Facts, p: &Program) -> Result<bool, NoMemory>
    ensures is { Holds p.now facts.now → IfOk result (λ b. b ≡ true → All (SoundPackage (program_view p.now)) (program_view p.now).packages) }
{
    let ranks = ranks_of(alloc, p.packages.items.as_slice())?;
    Ok(are_sound(facts, p, ranks.as_slice()))
}

/// Whether no two packages have one path.
pub fn all_paths_differ(p: &Program) -> bool
    ensures is { result ≡ true → AllPairs DifferInPath (program_view p.now).packages }
{
    paths_differ(p.packages.items.as_slice())
}
