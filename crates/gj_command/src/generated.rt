//! The command `gen`: a program with many goroutines, compiled and run.

ghost use Rattle.std.specs.Prelude.{◌≡◌, ◌≢◌, ◌≤◌, List, ℕ};
ghost use Rattle.gj_words.specs.Words.{most_size};
ghost use Rattle.gj_command.specs.Refusals.{ErrCanBeTold};
ghost use Rattle.gj_command.specs.Told.{Told};
ghost use Rattle.gj_command.specs.declared.outcome.Outcome.TheVariants.{Usage};

use crate::outcome::Outcome;
use crate::refusal::{internal, out_of_memory, refuse, written};
use crate::report::tell_stopped;
use gj_base::{NoMemory, SeedChoices, Sink, SinkError, Text, TreeFiles, VecSink};
use gj_compile::{Refused, compile};
use itoa::Buffer;
use js_run::RunEnd;
use js_tree::Script;
use std::alloc::Global;

const SEED: u64 = 1;

const STEPS: u64 = 1000000000;

/// Compiles and runs the program with `size` goroutines, and tells how many functions it has, how many
/// bytes it prints, the last line, and its status.
pub fn generated<O: Sink, E: Sink>(alloc: Global, size: u32, out: &mut O, err: &mut E) -> Outcome
    requires { size ≤ most_size }
    ensures { (line : List ℕ) × (result ≢ Usage) × Told line (E.state err.old) (E.state err.new) }
{
    match compiled(alloc, size) {
        Ok(script) => run_generated(alloc, &script, size, out, err),
        Err(refused) => refuse(alloc, refused, err),
    }
}

// The script of the program.
fn compiled(alloc: Global, size: u32) -> Result<Script, Refused>
    ensures { ErrCanBeTold result }
{
    match files_of(alloc, size) {
        Ok(files) => compiled_files(alloc, files),
        Err(_) => Err(Refused::NoMemory),
    }
}

fn compiled_files(alloc: Global, mut files: TreeFiles) -> Result<Script, Refused>
    ensures { ErrCanBeTold result }
{
    compile(alloc, "app", "src", &mut files)
}

// Runs the script of the program. What it prints is kept in memory.
fn run_generated<O: Sink, E: Sink>(
    alloc: Global,
    script: &Script,
    size: u32,
    out: &mut O,
    err: &mut E,
) -> Outcome
    requires { size ≤ most_size }
    ensures { (line : List ℕ) × (result ≢ Usage) × Told line (E.state err.old) (E.state err.new) }
{
    let mut choices = SeedChoices::new(SEED);
    let mut printed = VecSink::new(alloc);
    match js_run::run(alloc, script, &mut choices, &mut printed, STEPS) {
        Ok(RunEnd::Ended(status, _)) => {
            written(tell_run(size, printed.bytes(), status, out), err)
        }
        Ok(RunEnd::Stopped) => {
            tell_stopped(STEPS, err);
            Outcome::Stopped(STEPS)
        }
        Ok(RunEnd::Stuck(_)) => internal(err),
        Err(_) => out_of_memory(err),
    }
}

// The four lines of a run.
fn tell_run<O: Sink>(size: u32, printed: &[u8], status: u8, out: &mut O) -> Result<(), SinkError>
    requires { size ≤ most_size }
{
    tell_number(b"functions ", size as u64 + 1, out)?;
    tell_number(b"printed ", printed.len() as u64, out)?;
    out.write(b"last ")?;
    out.write(last_line(printed))?;
    out.write(b"\n")?;
    tell_number(b"status ", status as u64, out)
}

fn tell_number<O: Sink>(name: &[u8], number: u64, out: &mut O) -> Result<(), SinkError> {
    let mut digits = Buffer::new();
    out.write(name)?;
    out.write(digits.format(number).as_bytes())?;
    out.write(b"\n")
}

// The last line, without its newline.
fn last_line(printed: &[u8]) -> &[u8] {
    let text = match printed.strip_suffix(b"\n") {
        Some(text) => text,
        None => printed,
    };
    let mut line = text;
    for (place, byte) in text.iter().enumerate() {
        if *byte == b'\n' {
            line = &text[place + 1..];
        }
    }
    line
}

// The folder of the program.
fn files_of(alloc: Global, size: u32) -> Result<TreeFiles, NoMemory> {
    let text = program_of(alloc, size)?;
    let mut files = TreeFiles::new(alloc);
    files.put("app/main.go", text.as_bytes())?;
    Ok(files)
}

fn program_of(alloc: Global, size: u32) -> Result<Text, NoMemory> {
    let mut text = Text::from_slice(alloc, b"package main\n")?;
    for number in 0..size {
        text.push_bytes(b"\nfunc w")?;
        push_number(&mut text, number)?;
        text.push_bytes(
            b"(in chan int, out chan int) {\n\ts := 0\n\tfor v := range in {\n\t\ts += v * ",
        )?;
        push_number(&mut text, number)?;
        text.push_bytes(b"\n\t}\n\tout <- s\n}\n")?;
    }
    push_main(&mut text, size)?;
    Ok(text)
}

fn push_main(text: &mut Text, size: u32) -> Result<(), NoMemory> {
    text.push_bytes(b"\nfunc main() {\n\tout := make(chan int)\n\tins := make([]chan int, ")?;
    push_number(text, size)?;
    text.push_bytes(b")\n\tfor i := range ins {\n\t\tins[i] = make(chan int, 1)\n\t}\n")?;
    for number in 0..size {
        text.push_bytes(b"\tgo w")?;
        push_number(text, number)?;
        text.push_bytes(b"(ins[")?;
        push_number(text, number)?;
        text.push_bytes(b"], out)\n")?;
    }
    text.push_bytes(
        b"\tfor j := 0; j < 3; j++ {\n\t\tfor i := range ins {\n\t\t\tins[i] <- j\n\t\t}\n\t}\n",
    )?;
    text.push_bytes(
        b"\tfor i := range ins {\n\t\tclose(ins[i])\n\t}\n\tt := 0\n\tfor i := 0; i < ",
    )?;
    push_number(text, size)?;
    text.push_bytes(b"; i++ {\n\t\tt += <-out\n\t}\n\tprintln(t)\n}\n")
}

fn push_number(text: &mut Text, number: u32) -> Result<(), NoMemory> {
    let mut digits = Buffer::new();
    text.push_bytes(digits.format(number).as_bytes())
}
