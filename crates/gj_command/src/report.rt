//! What a user is told, in one table: the lines for the error sink.

ghost use Rattle.std.specs.Prelude.{◌≡◌, ◌≤◌, List, ℕ, IfOk, flat_map, length};
ghost use Rattle.gj_base.specs.LineColumn.{line_and_column};
ghost use Rattle.go_load.specs.Root.{file_limit};
ghost use Rattle.gj_command.specs.FaultText.{of_text, of_constants, of_expressions, of_types, of_statements, sentence, ending, fault_text, line_of, line_at, slash_after, whole_name};
ghost use Rattle.gj_command.specs.Told.{Told};

use gj_base::{Fault, NoMemory, Sink, Text, line_col};
use go_load::FileEntry;
use itoa::Buffer;
use std::alloc::Global;

/// The lines that tell which words there are.
pub const USAGE: &[u8] = b"usage: gopherjs build [-o FILE] [-m] [--src DIR] DIR
       gopherjs run [--seed N] [--steps N] [--src DIR] DIR
       gopherjs blocking [--src DIR] DIR
       gopherjs exec [--seed N] [--steps N] FILE
       gopherjs gen --size N
       gopherjs version
";

pub const READ_FAILED: &[u8] = b"gopherjs: read failed\n";

pub const WRITE_FAILED: &[u8] = b"gopherjs: write failed\n";

pub const OUT_OF_MEMORY: &[u8] = b"gopherjs: out of memory\n";

pub const INTERNAL: &[u8] = b"gopherjs: internal error\n";

pub const TOO_LONG: &[u8] = b"gopherjs: file too long\n";

pub const VERSION: &[u8] = b"gopherjs go1.17 profile 1\n";

// Faults of a text and of its grammar.
fn of_text(code: u16) -> &'static [u8]
    ensures { result.now ≡ of_text code }
{
    match code {
        0 => b"form not built yet",
        1 => b"invalid character",
        2 => b"invalid UTF-8",
        3 => b"string literal not terminated",
        4 => b"invalid rune literal",
        5 => b"floats and imaginary numbers are not in the profile",
        6 => b"invalid number",
        7 => b"invalid escape",
        8 => b"comment not terminated",
        9 => b"number outside 128 bits",
        10 => b"syntax error: unexpected ",
        11 => b"nesting deeper than 100",
        12 => b"chain longer than 500",
        _ => b"",
    }
}

// Faults of constants, and of packages.
fn of_constants(code: u16) -> &'static [u8]
    ensures { result.now ≡ of_constants code }
{
    match code {
        30 => b"division by zero",
        31 => b"constant outside 128 bits",
        32 => b"constant does not fit its type",
        33 => b"negative shift count",
        40 => b"package ",
        41 => b"import cycle",
        42 => b"package names differ",
        43 => b"no function main",
        44 => b"wrong use of package main",
        45 => b"file longer than 4194304 bytes",
        46 => b"program too large",
        47 => b"build constraints are not in the profile",
        48 => b"initialisation cycle",
        _ => b"",
    }
}

// Faults of names and expressions.
fn of_expressions(code: u16) -> &'static [u8]
    ensures { result.now ≡ of_expressions code }
{
    match code {
        50 => b"undefined: ",
        51 => b"a type is wanted here",
        52 => b"a value is wanted here",
        53 => b"bad parameter list",
        54 => b"operator not defined here",
        55 => b"operands do not fit",
        56 => b"values can not be compared",
        57 => b"shift needs integers",
        58 => b"conversion not possible",
        59 => b"not a function",
        60 => b"wrong number of arguments",
        61 => b"value does not fit the wanted type",
        62 => b"no field or method ",
        64 => b"can not be indexed",
        65 => b"bad index",
        66 => b"not a pointer",
        67 => b"not addressable",
        68 => b"impossible type assertion",
        69 => b"bad literal",
        _ => b"",
    }
}

// Faults of types and of what is too large.
fn of_types(code: u16) -> &'static [u8]
    ensures { result.now ≡ of_types code }
{
    match code {
        70 => b"map key type not in the profile",
        71 => b"not in the profile",
        72 => b"bad arguments of ",
        73 => b"use of untyped nil",
        74 => b"invalid recursive type",
        75 => b"type too large",
        76 => b"more than 1000 parts",
        77 => b"duplicate ",
        78 => b"bad array length",
        79 => b"too many functions",
        _ => b"",
    }
}

// Faults of declarations and statements.
fn of_statements(code: u16) -> &'static [u8]
    ensures { result.now ≡ of_statements code }
{
    match code {
        81 => b"\"",
        83 => b"bad left side of :=",
        84 => b"counts do not match",
        85 => b"can not assign here",
        86 => b"condition is not boolean",
        87 => b"missing return",
        88 => b"wrong number of results",
        89 => b"no target",
        90 => b"label ",
        91 => b"misplaced fallthrough",
        92 => b"duplicate case",
        93 => b"expression is not used",
        94 => b"bad range",
        95 => b"bad receiver",
        96 => b"a call is wanted here",
        97 => b"bad communication",
        98 => b"import form not in the profile",
        99 => b"bad main or init",
        _ => b"",
    }
}

/// The text of a fault with this code, up to the name that it tells.
fn sentence(code: u16) -> &'static [u8]
    ensures { result.now ≡ sentence code }
{
    if code < 30 {
        return of_text(code);
    }
    if code < 50 {
        return of_constants(code);
    }
    if code < 70 {
        return of_expressions(code);
    }
    if code < 80 {
        return of_types(code);
    }
    of_statements(code)
}

/// The text of a fault with this code after the name that it tells.
fn ending(code: u16) -> &'static [u8]
    ensures { result.now ≡ ending code }
{
    match code {
        40 => b" not found",
        63 => b" is not exported",
        80 => b" declared but not used",
        81 => b"\" imported and not used",
        82 => b" redeclared",
        90 => b" defined and not used",
        _ => b"",
    }
}

/// The whole text of a fault.
pub fn fault_text(alloc: Global, fault: &Fault) -> Result<Text, NoMemory>
    ensures { IfOk result (λ text. text ≡ fault_text fault.now) }
{
    let mut text = Text::from_slice(alloc, sentence(fault.code))?;
    text.push_bytes(fault.text.as_bytes())?;
    text.push_bytes(ending(fault.code))?;
    Ok(text)
}

/// Tells this text of a place in a file.
pub fn tell_at<E: Sink>(entry: &FileEntry, offset: u32, text: &[u8], err: &mut E)
    requires { length entry.now.bytes ≤ file_limit }
    ensures { Told (line_at entry.now.name (line_and_column entry.now.bytes offset) text.now) (E.state err.old) (E.state err.new) }
{
    tell_in(
        entry.name.as_bytes(),
        entry.bytes.as_bytes(),
        offset,
        text,
        err,
    );
}

/// Tells this text of an offset in a file of this name with these bytes.
fn tell_in<E: Sink>(name: &[u8], bytes: &[u8], offset: u32, text: &[u8], err: &mut E)
    requires { length bytes.now ≤ file_limit }
    ensures { Told (line_at name.now (line_and_column bytes.now offset) text.now) (E.state err.old) (E.state err.new) }
{
    let (line, column) = place_in(bytes, offset);
    tell_place(name, line, column, text, err);
}

/// Tells this text of a line and a column in a file of this name.
fn tell_place<E: Sink>(name: &[u8], line: u32, column: u32, text: &[u8], err: &mut E)
    ensures { Told (line_at name.now (line, column) text.now) (E.state err.old) (E.state err.new) }
{
    let mut line_digits = Buffer::new();
    let mut column_digits = Buffer::new();
    let line = line_digits.format(line).as_bytes();
    let column = column_digits.format(column).as_bytes();
    tell_parts(name, line, column, text, err);
}

/// Tells this text of a place whose numbers are written so.
fn tell_parts<E: Sink>(name: &[u8], line: &[u8], column: &[u8], text: &[u8], err: &mut E)
    ensures { Told (line_of name.now line.now column.now text.now) (E.state err.old) (E.state err.new) }
{
    tell(err, &[name, b":", line, b":", column, b": ", text, b"\n"]);
}

/// The line and the column of an offset. Past the end they are those of the end.
fn place_in(bytes: &[u8], offset: u32) -> (u32, u32)
    requires { length bytes.now ≤ file_limit }
    ensures { result ≡ line_and_column bytes.now offset }
{
    let size = bytes.len() as u32;
    if offset < size {
        return line_col(bytes, offset);
    }
    line_col(bytes, size)
}

/// The name of a file with the path of its package.
pub fn whole_name(alloc: Global, entry: &FileEntry) -> Result<Text, NoMemory>
    ensures { IfOk result (λ text. text ≡ whole_name entry.now) }
{
    let mut name = Text::from_slice(alloc, entry.path.as_bytes())?;
    name.push_bytes(slash_after(entry.path.as_bytes()))?;
    name.push_bytes(entry.name.as_bytes())?;
    Ok(name)
}

/// Tells this text of a place in a file, which is named so.
pub fn tell_named<E: Sink>(name: &Text, entry: &FileEntry, offset: u32, text: &Text, err: &mut E)
    requires { length entry.now.bytes ≤ file_limit }
    ensures { Told (line_at name.now (line_and_column entry.now.bytes offset) text.now) (E.state err.old) (E.state err.new) }
{
    tell_in(
        name.as_bytes(),
        entry.bytes.as_bytes(),
        offset,
        text.as_bytes(),
        err,
    );
}

/// What stands between the path of a package and the name of a file.
fn slash_after(path: &[u8]) -> &'static [u8]
    ensures { result.now ≡ slash_after path.now }
{
    match path {
        [] => b"",
        _ => b"/",
    }
}

/// Writes a line in pieces; after a failed write nothing more is written.
pub fn tell<E: Sink>(err: &mut E, pieces: &[&[u8]])
    ensures { Told (flat_map (λ piece. piece.now) pieces.now) (E.state err.old) (E.state err.new) }
{
    for piece in pieces {
        if err.write(piece).is_err() {
            return;
        }
    }
}

/// Tells that a run was stopped after so many steps.
pub fn tell_stopped<E: Sink>(steps: u64, err: &mut E)
    ensures { (line : List ℕ) × Told line (E.state err.old) (E.state err.new) }
{
    let mut digits = Buffer::new();
    let steps = digits.format(steps).as_bytes();
    tell(err, &[b"gopherjs: stopped after ", steps, b" steps\n"]);
}

/// Tells that bytes are no script.
pub fn tell_bad_script<E: Sink>(at: u32, err: &mut E)
    ensures { (line : List ℕ) × Told line (E.state err.old) (E.state err.new) }
{
    let mut digits = Buffer::new();
    let at = digits.format(at).as_bytes();
    tell(err, &[b"gopherjs: bad script at byte ", at, b"\n"]);
}

/// Tells that a script's operation has no meaning.
pub fn tell_stuck<E: Sink>(at: u32, err: &mut E)
    ensures { (line : List ℕ) × Told line (E.state err.old) (E.state err.new) }
{
    let mut digits = Buffer::new();
    let at = digits.format(at).as_bytes();
    tell(err, &[b"gopherjs: script stuck at byte ", at, b"\n"]);
}
