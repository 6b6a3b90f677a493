//! What a user is told where a command did not do its work.

ghost use Rattle.std.specs.Prelude.{◌≡◌, ◌≢◌, ◌≤◌, All, List, ℕ, length, true};
ghost use Rattle.go_load.specs.Root.{file_limit};
ghost use Rattle.gj_command.specs.Headline.{IsToldBeyond, IsToldOf, out_of_memory_line, write_failed_line, read_failed_line, internal_line};
ghost use Rattle.gj_command.specs.Refusals.{CanBeTold};
ghost use Rattle.gj_command.specs.Told.{Told};
ghost use Rattle.gj_command.specs.declared.outcome.Outcome.TheVariants as outcome;
ghost use Rattle.gj_compile.specs.declared.refused.Refused.TheVariants as refused;

use crate::outcome::Outcome;
use crate::report;
use crate::report::{fault_text, tell, tell_at, tell_named, whole_name};
use gj_base::{Fault, Sink, SinkError};
use gj_compile::Refused;
use go_load::{FileEntry, Sources};
use std::alloc::Global;

/// The most bytes of a file that is read.
const FILE_LIMIT: usize = 4194304;

/// Tells that the memory did not suffice.
pub fn out_of_memory<E: Sink>(err: &mut E) -> Outcome
    ensures value { result ≡ outcome.NoMemory }
    ensures told { Told out_of_memory_line (E.state err.old) (E.state err.new) }
{
    tell(err, &[report::OUT_OF_MEMORY]);
    Outcome::NoMemory
}

/// Tells that a store or a write failed.
pub fn write_failed<E: Sink>(err: &mut E) -> Outcome
    ensures value { result ≡ outcome.WriteFault }
    ensures told { Told write_failed_line (E.state err.old) (E.state err.new) }
{
    tell(err, &[report::WRITE_FAILED]);
    Outcome::WriteFault
}

/// Tells that a read failed.
pub fn read_failed<E: Sink>(err: &mut E) -> Outcome
    ensures value { result ≡ outcome.ReadFault }
    ensures told { Told read_failed_line (E.state err.old) (E.state err.new) }
{
    tell(err, &[report::READ_FAILED]);
    Outcome::ReadFault
}

/// Tells that parts of the compiler contradict each other.
pub fn internal<E: Sink>(err: &mut E) -> Outcome
    ensures value { result ≡ outcome.Internal }
    ensures told { Told internal_line (E.state err.old) (E.state err.new) }
{
    tell(err, &[report::INTERNAL]);
    Outcome::Internal
}

/// What comes of output that was written, or not.
pub fn written<E: Sink>(output: Result<(), SinkError>, err: &mut E) -> Outcome
    ensures { (line : List ℕ) × (result ≢ outcome.Usage) × Told line (E.state err.old) (E.state err.new) }
{
    match output {
        Ok(()) => Outcome::Done,
        Err(SinkError::Failed) => write_failed(err),
        Err(SinkError::NoMemory) => out_of_memory(err),
    }
}

/// Tells why a folder has no script.
pub fn refuse<E: Sink>(alloc: Global, refused: Refused, err: &mut E) -> Outcome
    requires { CanBeTold refused }
    ensures { (line : List ℕ) × IsToldOf refused result line × Told line (E.state err.old) (E.state err.new) }
{
    match refused {
        Refused::ReadFault => read_failed(err),
        Refused::NoMemory => out_of_memory(err),
        Refused::Internal => internal(err),
        Refused::Fault(fault, sources) => refuse_fault(alloc, fault, &sources, err),
        Refused::Beyond(fault, sources) => refuse_beyond(alloc, fault, &sources, err),
    }
}

/// Tells of a fault in these files.
fn refuse_fault<E: Sink>(alloc: Global, fault: Fault, sources: &Sources, err: &mut E) -> Outcome
    requires { All (λ e. length e.bytes ≤ file_limit) sources.now }
    ensures { (line : List ℕ) × IsToldOf (refused.Fault fault sources.now) result line × Told line (E.state err.old) (E.state err.new) }
{
    let Ok(text) = fault_text(alloc, &fault) else {
        return out_of_memory(err);
    };
    let place = fault.place;
    if place.file as usize >= sources.as_slice().len() {
        // Own: not proved is that a fault of a tree stands in one of the files.
        return out_of_memory(err);
    }
    let entry = &sources.as_slice()[place.file as usize];
    tell_at(entry, place.offset, text.as_bytes(), err);
    Outcome::Fault(Fault {
        place,
        code: fault.code,
        text,
    })
}

/// Tells of a fault in these files, of which nothing is proved.
fn refuse_beyond<E: Sink>(alloc: Global, fault: Fault, sources: &Sources, err: &mut E) -> Outcome
    ensures { (line : List ℕ) × IsToldBeyond result line × Told line (E.state err.old) (E.state err.new) }
{
    let number = fault.place.file as usize;
    if number >= sources.as_slice().len() {
        return internal(err);
    }
    let entry = &sources.as_slice()[number];
    if !is_short(entry) {
        return internal(err);
    }
    let Ok(text) = fault_text(alloc, &fault) else {
        return out_of_memory(err);
    };
    let Ok(name) = whole_name(alloc, entry) else {
        return out_of_memory(err);
    };
    tell_named(&name, entry, fault.place.offset, &text, err);
    Outcome::Fault(Fault {
        place: fault.place,
        code: fault.code,
        text,
    })
}

/// Whether a file keeps the limit.
fn is_short(entry: &FileEntry) -> bool
    ensures { result ≡ true → length entry.now.bytes ≤ file_limit }
{
    entry.bytes.as_bytes().len() <= FILE_LIMIT
}
