//! What is let go at the top of a file, between frames and at the end.

ghost use Rattle.std.specs.Prelude.{◌≡◌, Err};
ghost use Rattle.go_grammar.specs.Frames as f;
ghost use Rattle.go_frames.specs.FrameView.{Comes};

use crate::ends::gone::{gone, gone_name, gone_stack, gone_tree};
use crate::frames::frame::{FilePart, Frame, ParamList, Value};
use crate::frames::stack::{Answer, Flow, Stack};
use gj_base::NoMemory;
use go_syntax::tree::{Decl, File, Import, Name};

/// No frame is left for this tree.
pub fn stuck_below(value: Value) -> Answer
    ensures value { Comes result f.Stuck }
{
    gone_tree(value);
    Ok(Flow::Stuck)
}

/// The token isn't the name of a function with this receiver.
pub fn stuck_func(_receiver: Option<ParamList>, _stack: Stack) -> Answer
    ensures value { Comes result f.Stuck }
{
    Ok(Flow::Stuck)
}

/// Memory runs out at the name of a function with this receiver.
pub fn lost_func(error: NoMemory, _receiver: Option<ParamList>, _stack: Stack) -> Answer
    ensures value { result ≡ Err error }
{
    Err(error)
}

/// Memory runs out at the path of an import with this name.
pub fn lost_path(error: NoMemory, _name: Option<Name>) -> Result<Import, NoMemory>
    ensures value { result ≡ Err error }
{
    Err(error)
}

/// Memory runs out at one import more of a file with these declarations.
pub fn lost_import(error: NoMemory, _package: Name, _decls: Vec<Decl>) -> Result<FilePart, NoMemory>
    ensures value { result ≡ Err error }
{
    Err(error)
}

/// Memory runs out at one declaration more of a file with these imports.
pub fn lost_decl(
    error: NoMemory,
    _package: Name,
    _imports: Vec<Import>,
) -> Result<FilePart, NoMemory>
    ensures value { result ≡ Err error }
{
    Err(error)
}

/// A name that no frame below takes.
pub fn unnamed(name: Option<Name>) {
    gone_name(name);
}

/// A tree that nothing takes, at the end of the tokens.
pub fn untaken(value: Value, stack: Stack) {
    gone_tree(value);
    gone_stack(stack);
}

/// The file, with nothing below it that matters.
pub fn alone(file: File, stack: Stack) -> File
    ensures value { result ≡ file }
{
    gone_stack(stack);
    file
}

/// The frames of a file that has come to its end too early.
pub fn cut_off(frame: Frame, stack: Stack) {
    gone(frame);
    gone_stack(stack);
}
