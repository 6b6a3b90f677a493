//! What a program prints.
//!
//! The Go Programming Language Specification (as of Go 1.17), "Bootstrapping".

ghost use Rattle.std.specs.Prelude.{◌≡◌, ℕ, List};
ghost use Rattle.go_type.specs.Tree.{Ty};
ghost use Rattle.go_core.specs.CoreTree.{CoreProgram};
ghost use Rattle.go_core.specs.Goroutine as defined;
ghost use Rattle.go_core.specs.GoStep as steps;
ghost use Rattle.go_partners.specs.Tells.{Prints};

use go_state::frame_steps::operands::operands;
use go_state::state::frame::Frame;
use go_values::operators::did::Stop;
use go_values::values::output::push_output;

/// Prints operands; each byte that is printed is a unit.
pub fn print_step<'p, 'a>(
    printed: &mut Vec<u8>,
    count: usize,
    ends_line: bool,
    f: &mut Frame<'p, 'a>,
) -> Result<u64, Stop>
    ensures value { (p : CoreProgram) (choices : List ℕ) (free : defined.Move) (ts : List Ty) → Prints ts result f.old f.new printed.old.items printed.new.items (λ g. steps.print_step p choices free g count ends_line) }
{
    let xs = operands(f, count)?;
    let before = printed.len();
    push_output(printed, ends_line, xs.as_slice())?;
    Ok((printed.len() - before) as u64)
}
