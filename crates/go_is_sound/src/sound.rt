//! The whole program.

ghost use Rattle.std.specs.Prelude.{◌≡◌, IfOk, IfSome, Some, true, slice_get};
ghost use Rattle.std.specs.List.{AllByRecursion};
ghost use Rattle.go_core.specs.CoreTree.{CoreFunc};
ghost use Rattle.go_core.specs.CoreView.{program_view};
ghost use Rattle.go_core.specs.SoundProgram.{Sound, SoundFunc};
ghost use Rattle.go_is_sound.specs.Facts.{Holds};
ghost use Rattle.go_is_sound.specs.Whole.{AreDistinct, BodiesSound, FuncsSound, VarSound};

use crate::facts::{Facts, facts_of};
use crate::functions::{func_is_sound, is_plain_func};
use crate::packages::{all_paths_differ, packages_are_sound};
use crate::rows::{hidden_is_sound, rows_fit};
use crate::types::are_set;
use crate::variables::{numbers_differ, var_is_sound};
use gj_base::NoMemory;
use go_core::program::Program;
use go_core::tree::FuncId;
use go_sound_parts::measures::measures_of;
use go_sound_parts::methods::func_at;
use std::alloc::Global;

// How many variables a function has.
fn count_vars(p: &Program, id: FuncId) -> usize {
    match func_at(p, id) {
        Some(f) => f.vars.items.len(),
        None => 0,
    }
}

// The function at a place, whose variables stand from another place on among all.
fn is_sound_at(
    alloc: Global,
    facts: &Facts,
    p: &Program,
    id: FuncId,
    from: usize,
) -> Result<bool, NoMemory>
    ensures is { let q = program_view p.now in Holds p.now facts.now → IfOk result (λ b. b ≡ true → (f : CoreFunc) → slice_get q.funcs id.0 ≡ Some f → SoundFunc q id.0 f) }
{
    match func_at(p, id) {
        Some(f) => func_is_sound(alloc, facts, p, id, f, from),
        None => Ok(false),
    }
}

// Each function; where the variables of initialisers begin, where all are sound.
fn funcs_are_sound(alloc: Global, facts: &Facts, p: &Program) -> Result<Option<usize>, NoMemory>
    ensures is { let q = program_view p.now in Holds p.now facts.now → IfOk result (λ o. IfSome o (λ n. FuncsSound q)) }
{
    let count = p.funcs.items.len();
    if count > 65535 {
        return Ok(None);
    }
    let mut from: usize = 0;
    'funcs: for k in 0..count as u32 {
        if !is_sound_at(alloc, facts, p, FuncId(k), from)? {
            return Ok(None);
        }
        from = from.saturating_add(count_vars(p, FuncId(k)));
    }
    Ok(Some(from))
}

fn vars_are_sound(alloc: Global, facts: &Facts, p: &Program, start: usize) -> Result<bool, NoMemory>
    ensures is { Holds p.now facts.now → IfOk result (λ b. b ≡ true → AllByRecursion (VarSound p.now) p.now.globals.items.items) }
{
    let mut from = start;
    for x in &p.globals.items {
        if !var_is_sound(alloc, facts, p, x, from)? {
            return Ok(false);
        }
        from = from.saturating_add(x.vars.items.len());
    }
    Ok(true)
}

fn bodies_are_sound(alloc: Global, facts: &Facts, p: &Program) -> Result<bool, NoMemory>
    ensures is { let q = program_view p.now in Holds p.now facts.now → IfOk result (λ b. b ≡ true → BodiesSound p.now) }
{
    match funcs_are_sound(alloc, facts, p)? {
        Some(from) => vars_are_sound(alloc, facts, p, from),
        None => Ok(false),
    }
}

// What is told by a look at rows and numbers alone.
fn are_distinct(facts: &Facts, p: &Program) -> bool
    ensures is { Holds p.now facts.now → result ≡ true → AreDistinct p.now }
{
    is_plain_func(facts, p, p.main)
        && hidden_is_sound(p, &facts.rows)
        && rows_fit(p)
        && all_paths_differ(p)
        && numbers_differ(p.globals.items.as_slice())
        && are_set(p, facts.measures.as_slice())
}

fn whole_is_sound(alloc: Global, facts: &Facts, p: &Program) -> Result<bool, NoMemory>
    ensures is { Holds p.now facts.now → IfOk result (λ b. b ≡ true → Sound (program_view p.now)) }
{
    let packages = packages_are_sound(alloc, facts, p)?;
    if !packages || !are_distinct(facts, p) {
        return Ok(false);
    }
    bodies_are_sound(alloc, facts, p)
}

/// Whether a program is Sound. Where memory runs out nothing is said.
pub fn is_sound(alloc: Global, p: &Program) -> Result<bool, NoMemory>
    ensures is { IfOk result (λ b. b ≡ true → Sound (program_view p.now)) }
{
    let measures = measures_of(alloc, &p.types)?;
    match facts_of(alloc, p, measures)? {
        Some(facts) => whole_is_sound(alloc, &facts, p),
        None => Ok(false),
    }
}
