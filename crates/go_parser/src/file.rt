//! Files: the package clause, imports and what is declared at the top.

ghost use Rattle.std.specs.Prelude.{◌≡◌, ◌∷◌, [], IfOk, map, if◌then◌else◌};
ghost use Rattle.go_grammar.specs.Frames as f;
ghost use Rattle.go_grammar.specs.StmtSteps as rows;
ghost use Rattle.go_grammar.specs.Nodes as nodes;
ghost use Rattle.go_syntax.specs.View.{sig_view, block_view, decl_view, import_view};
ghost use Rattle.go_frames.specs.FrameView.{Comes, token_of, receiver_in, file_part, file_frame, stack_view};

use gj_base::{NoMemory, Place, Text};
use go_field_steps::sig::open_params;
use go_frames::begins::decl::begin_decl;
use go_frames::ends::file::{lost_decl, lost_func, lost_import, lost_path, stuck_func};
use go_frames::ends::list::{and_decl, and_import};
use go_frames::ends::lost::{lost, lost_at};
use go_frames::ends::refused::{stuck, stuck_at, stuck_with};
use go_frames::frames::at::At;
use go_frames::frames::ctx::Ctx;
use go_frames::frames::form::{func_decl, method_decl};
use go_frames::frames::frame::{FileFrame, FilePart, Frame, ParamList, Role, SigFrame, Value};
use go_frames::frames::node::name;
use go_frames::frames::stack::{Answer, Stack, goes, open_block, over};
use go_syntax::tree::{Block, Decl, File, Import, Name, Sig};
use go_syntax::{Keyword, Operator, TokenKind};
use std::alloc::Global;

/// What the top frame does at the token.
pub fn file_row(alloc: Global, at: At, text: &[u8], frame: FileFrame, stack: Stack) -> Answer
    ensures value { Comes result (rows.file_row (token_of at text.now) (file_frame frame) (stack_view stack)) }
{
    match frame {
        FileFrame::Start => start(at, stack),
        FileFrame::Package => package(alloc, at, text, stack),
        FileFrame::PackageEnd(package) => package_end(alloc, at, package, stack),
        FileFrame::Top(part) => top(alloc, at, part, stack),
        FileFrame::Import(part) => import(alloc, at, text, part, stack),
        FileFrame::ImportGroup(part) => import_group(alloc, at, text, part, stack),
        FileFrame::Path(part, group, name) => path(alloc, at, text, part, group, name, stack),
        FileFrame::ImportEnd(part, group) => import_end(at, part, group, stack),
        FileFrame::Func(place) => func(alloc, at, text, place, stack),
        FileFrame::FuncName(place, receiver) => func_name(
            alloc,
            at,
            text,
            place,
            Some(receiver),
            stack,
        ),
        other => stuck_at(Frame::File(other), stack),
    }
}

/// "package" name ";"
fn start(at: At, stack: Stack) -> Answer
    ensures value { Comes result (rows.file_row (token_of at []) f.Start (stack_view stack)) }
{
    if at.is_word(Keyword::Package) {
        return goes(stack, Frame::File(FileFrame::Package));
    }
    stuck(stack)
}

fn package(alloc: Global, at: At, text: &[u8], stack: Stack) -> Answer
    ensures value { Comes result (rows.file_row (token_of at text.now) f.AtPackage (stack_view stack)) }
{
    if !at.is_name() {
        return stuck(stack);
    }
    match name(alloc, at.place, text) {
        Ok(name) => goes(stack, Frame::File(FileFrame::PackageEnd(name))),
        Err(error) => lost(error, stack),
    }
}

fn package_end(alloc: Global, at: At, name: Name, stack: Stack) -> Answer
    ensures value { Comes result (rows.file_row (token_of at []) (f.PackageEnd name) (stack_view stack)) }
{
    if !at.is_semicolon() {
        return stuck_at(Frame::File(FileFrame::PackageEnd(name)), stack);
    }
    let part = FilePart {
        package: name,
        imports: Vec::new(alloc),
        decls: Vec::new(alloc),
    };
    goes(stack, Frame::File(FileFrame::Top(part)))
}

/// {"import" Group(Spec) ";"} {Top ";"} End
fn top(alloc: Global, at: At, part: FilePart, stack: Stack) -> Answer
    ensures value { Comes result (rows.file_row (token_of at []) (f.Top (file_part part)) (stack_view stack)) }
{
    match at.kind {
        TokenKind::End => {
            let file = File {
                package: part.package,
                imports: part.imports,
                decls: part.decls,
            };
            goes(stack, Frame::File(FileFrame::Whole(file)))
        }
        TokenKind::Word(word) => top_word(alloc, at, word, part, stack),
        _ => stuck_at(Frame::File(FileFrame::Top(part)), stack),
    }
}

fn top_word(alloc: Global, at: At, word: Keyword, part: FilePart, stack: Stack) -> Answer
    ensures value { Comes result (rows.top_word (token_of at []) word (file_part part) (stack_view stack)) }
{
    match word {
        Keyword::Import => {
            if has_none(&part.decls) {
                return goes(stack, Frame::File(FileFrame::Import(part)));
            }
            stuck_at(Frame::File(FileFrame::Top(part)), stack)
        }
        Keyword::Const | Keyword::Type | Keyword::Var => {
            let stack = stack.with(Frame::File(FileFrame::Top(part)))?;
            begin_decl(alloc, at, 0, stack)
        }
        Keyword::Func => {
            let stack = stack.with(Frame::File(FileFrame::Top(part)))?;
            goes(stack, Frame::File(FileFrame::Func(at.place)))
        }
        _ => stuck_at(Frame::File(FileFrame::Top(part)), stack),
    }
}

fn has_none(decls: &Vec<Decl>) -> bool
    ensures value { result ≡ rows.has_none (map decl_view decls.now.items) }
{
    decls.len() == 0
}

fn with_import(part: FilePart, import: Import) -> Result<FilePart, NoMemory>
    ensures value { IfOk result (λ x. file_part x ≡ rows.with_import (file_part part) (import_view import)) }
{
    let FilePart {
        package,
        imports,
        decls,
    } = part;
    match and_import(imports, import) {
        Ok(imports) => Ok(FilePart {
            package,
            imports,
            decls,
        }),
        Err(error) => lost_import(error, package, decls),
    }
}

/// Group(Spec)
fn import(alloc: Global, at: At, text: &[u8], part: FilePart, stack: Stack) -> Answer
    ensures value { Comes result (rows.file_row (token_of at text.now) (f.AtImport (file_part part)) (stack_view stack)) }
{
    if at.is(Operator::LeftParen) {
        return goes(stack, Frame::File(FileFrame::ImportGroup(part)));
    }
    import_spec(alloc, at, text, part, false, stack)
}

fn import_group(alloc: Global, at: At, text: &[u8], part: FilePart, stack: Stack) -> Answer
    ensures value { Comes result (rows.file_row (token_of at text.now) (f.ImportGroup (file_part part)) (stack_view stack)) }
{
    if at.is(Operator::RightParen) {
        return goes(stack, Frame::File(FileFrame::ImportEnd(part, false)));
    }
    import_spec(alloc, at, text, part, true, stack)
}

/// Spec = [name | "."] string
fn import_spec(
    alloc: Global,
    at: At,
    text: &[u8],
    part: FilePart,
    group: bool,
    stack: Stack,
) -> Answer
    ensures value { Comes result (rows.import_spec (token_of at text.now) (file_part part) group (stack_view stack)) }
{
    if at.is_string() {
        return match import_of(alloc, at, text, at.place, None) {
            Ok(import) => end_spec(part, import, group, stack),
            Err(error) => lost_at(error, Frame::File(FileFrame::Import(part)), stack),
        };
    }
    if at.is_name() || at.is(Operator::Dot) {
        return match name(alloc, at.place, text) {
            Ok(name) => goes(stack, Frame::File(FileFrame::Path(part, group, name))),
            Err(error) => lost_at(error, Frame::File(FileFrame::Import(part)), stack),
        };
    }
    stuck_at(Frame::File(FileFrame::Import(part)), stack)
}

/// The string after a name.
fn path(
    alloc: Global,
    at: At,
    text: &[u8],
    part: FilePart,
    group: bool,
    name: Name,
    stack: Stack,
) -> Answer
    ensures value { Comes result (rows.file_row (token_of at text.now) (f.ImportName (file_part part) group name) (stack_view stack)) }
{
    if !at.is_string() {
        return stuck_at(Frame::File(FileFrame::Path(part, group, name)), stack);
    }
    let place = name.place;
    match import_of(alloc, at, text, place, Some(name)) {
        Ok(import) => end_spec(part, import, group, stack),
        Err(error) => lost_at(error, Frame::File(FileFrame::Import(part)), stack),
    }
}

/// The import of this string, from this place on.
fn import_of(
    alloc: Global,
    at: At,
    text: &[u8],
    place: Place,
    name: Option<Name>,
) -> Result<Import, NoMemory>
    ensures value { IfOk result (λ x. import_view x ≡ record { place = place; name = name; path = text.now; path_place = at.place }) }
{
    match Text::from_slice(alloc, text) {
        Ok(path) => Ok(Import {
            place,
            name,
            path,
            path_place: at.place,
        }),
        Err(error) => lost_path(error, name),
    }
}

fn end_spec(part: FilePart, import: Import, group: bool, stack: Stack) -> Answer
    ensures value { Comes result (f.Goes (f.OfFile (f.ImportEnd (rows.with_import (file_part part) (import_view import)) group) ∷ (stack_view stack))) }
{
    match with_import(part, import) {
        Ok(part) => goes(stack, Frame::File(FileFrame::ImportEnd(part, group))),
        Err(error) => lost(error, stack),
    }
}

/// After a Spec, or after a group.
fn import_end(at: At, part: FilePart, group: bool, stack: Stack) -> Answer
    ensures value { Comes result (rows.file_row (token_of at []) (f.ImportEnd (file_part part) group) (stack_view stack)) }
{
    if at.is_semicolon() {
        return next_import(part, group, stack);
    }
    if group && at.is(Operator::RightParen) {
        return goes(stack, Frame::File(FileFrame::ImportEnd(part, false)));
    }
    stuck_at(Frame::File(FileFrame::ImportEnd(part, group)), stack)
}

fn next_import(part: FilePart, group: bool, stack: Stack) -> Answer
    ensures value { Comes result (f.Goes (f.OfFile (if group then f.ImportGroup (file_part part) else f.Top (file_part part)) ∷ (stack_view stack))) }
{
    if group {
        return goes(stack, Frame::File(FileFrame::ImportGroup(part)));
    }
    goes(stack, Frame::File(FileFrame::Top(part)))
}

/// "func" [Params] name Sig Block
fn func(alloc: Global, at: At, text: &[u8], place: Place, stack: Stack) -> Answer
    ensures value { Comes result (rows.file_row (token_of at text.now) (f.TopFunc place) (stack_view stack)) }
{
    if at.is(Operator::LeftParen) {
        return open_params(alloc, at, Ctx::new(0), Role::Receiver(place), stack);
    }
    func_name(alloc, at, text, place, None, stack)
}

fn func_name(
    alloc: Global,
    at: At,
    text: &[u8],
    place: Place,
    receiver: Option<ParamList>,
    stack: Stack,
) -> Answer
    ensures value { Comes result (rows.named_func (token_of at text.now) place (receiver_in receiver) (stack_view stack)) }
{
    if !at.is_name() {
        return stuck_func(receiver, stack);
    }
    match name(alloc, at.place, text) {
        Ok(name) => then_sig(FileFrame::FuncSig(place, receiver, name), stack),
        Err(error) => lost_func(error, receiver, stack),
    }
}

/// A frame that waits for a signature.
fn then_sig(frame: FileFrame, stack: Stack) -> Answer
    ensures value { Comes result (f.Goes (f.OfSig (f.SigOpen (f.new_ctx 0)) ∷ f.OfFile (file_frame frame) ∷ stack_view stack)) }
{
    let stack = stack.with(Frame::File(frame))?;
    goes(stack, Frame::Sig(SigFrame::Open(Ctx::new(0))))
}

/// What a declared function does with its signature at the token.
pub fn file_meets_sig(alloc: Global, at: At, frame: FileFrame, sig: Sig, stack: Stack) -> Answer
    ensures value { Comes result (rows.file_meets_sig (token_of at []) (file_frame frame) (sig_view sig) (stack_view stack)) }
{
    match frame {
        FileFrame::FuncSig(place, receiver, name) => {
            let stack = stack.with(Frame::File(FileFrame::FuncBody(place, receiver, name, sig)))?;
            open_block(alloc, at, 0, stack)
        }
        other => stuck_with(Frame::File(other), Value::Sig(sig), stack),
    }
}

/// What a declared function does with its body.
pub fn file_meets_block(alloc: Global, frame: FileFrame, block: Block, stack: Stack) -> Answer
    ensures value { Comes result (rows.file_meets_block (file_frame frame) (block_view block) (stack_view stack)) }
{
    match frame {
        FileFrame::FuncBody(place, receiver, name, sig) => over_func(
            alloc, place, receiver, name, sig, block, stack,
        ),
        other => stuck_with(Frame::File(other), Value::Block(block), stack),
    }
}

fn over_func(
    alloc: Global,
    place: Place,
    receiver: Option<ParamList>,
    name: Name,
    sig: Sig,
    block: Block,
    stack: Stack,
) -> Answer
    ensures value { Comes result (rows.file_meets_block (f.TopBody place (receiver_in receiver) name (sig_view sig)) (block_view block) (stack_view stack)) }
{
    match receiver {
        None => match func_decl(alloc, place, name, sig, block) {
            Ok(d) => over(stack, Value::Decl(d)),
            Err(error) => lost(error, stack),
        },
        Some(list) => match method_decl(alloc, place, list, name, sig, block) {
            Ok(d) => over(stack, Value::Decl(d)),
            Err(error) => lost(error, stack),
        },
    }
}

/// After a declaration at the top: `;`.
pub fn file_meets_decl(at: At, frame: FileFrame, d: Decl, stack: Stack) -> Answer
    ensures value { Comes result (rows.file_meets_decl (token_of at []) (file_frame frame) (decl_view d) (stack_view stack)) }
{
    match frame {
        FileFrame::Top(part) => end_decl(at, part, d, stack),
        other => stuck_with(Frame::File(other), Value::Decl(d), stack),
    }
}

fn end_decl(at: At, part: FilePart, d: Decl, stack: Stack) -> Answer
    ensures value { Comes result (rows.file_meets_decl (token_of at []) (f.Top (file_part part)) (decl_view d) (stack_view stack)) }
{
    if !at.is_semicolon() {
        return stuck_with(Frame::File(FileFrame::Top(part)), Value::Decl(d), stack);
    }
    match with_decl(part, d) {
        Ok(part) => goes(stack, Frame::File(FileFrame::Top(part))),
        Err(error) => lost(error, stack),
    }
}

fn with_decl(part: FilePart, d: Decl) -> Result<FilePart, NoMemory>
    ensures value { IfOk result (λ x. file_part x ≡ record (file_part part) { decls = nodes.and (file_part part).decls (decl_view d) }) }
{
    let FilePart {
        package,
        imports,
        decls,
    } = part;
    match and_decl(decls, d) {
        Ok(decls) => Ok(FilePart {
            package,
            imports,
            decls,
        }),
        Err(error) => lost_decl(error, package, imports),
    }
}
