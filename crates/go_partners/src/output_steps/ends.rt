//! Ends that a program asks for: statuses and fatal errors, which are own.

ghost use Rattle.std.specs.Prelude.{◌≡◌, ℕ, [], ◌∷◌, List};
ghost use Rattle.go_type.specs.Tree.{Ty};
ghost use Rattle.go_core.specs.Arithmetic.{residue};
ghost use Rattle.go_core.specs.CoreTree.{CoreProgram};
ghost use Rattle.go_core.specs.Goroutine as defined;
ghost use Rattle.go_core.specs.GoStep as steps;
ghost use Rattle.go_values.specs.ValuesSeen.{scalar_of, value_of};
ghost use Rattle.go_state.specs.StateSeen.{frame_of};
ghost use Rattle.go_partners.specs.Tells.{Tells};
ghost use Rattle.go_state.specs.declared.state.frame.Frame as framed;

use gj_base::Kind;
use go_state::frame_steps::operands::operand;
use go_state::state::frame::Frame;
use go_state::state::state::End;
use go_values::operators::did::Stop;
use go_values::values::arithmetic::bits_of;
use go_values::values::scalar::Scalar;

// The low 8 bits of a number.
fn low_byte(n: i128) -> u32
    ensures value { result ≡ residue 256 n }
{
    bits_of(Kind::U8, n) as u32
}

fn status_in<'a>(x: Scalar<'a>) -> Result<End<'a>, Stop>
    ensures value { (p : CoreProgram) (choices : List ℕ) (free : defined.Move) (ts : List Ty) (f : framed.Frame) → Tells ts result f (λ g below s. steps.exited p choices free g below s (scalar_of ts x.entry ∷ []) (frame_of ts f)) }
{
    match x {
        Scalar::Whole(n) => Ok(End::Exit(low_byte(n))),
        _ => Err(Stop::NoStep),
    }
}

fn status_of<'a>(cells: &[Scalar<'a>]) -> Result<End<'a>, Stop>
    ensures value { (p : CoreProgram) (choices : List ℕ) (free : defined.Move) (ts : List Ty) (f : framed.Frame) → Tells ts result f (λ g below s. steps.exited p choices free g below s (value_of ts cells.now) (frame_of ts f)) }
{
    match cells {
        [x] => status_in(*x),
        _ => Err(Stop::NoStep),
    }
}

/// The end with a status, of which the low 8 bits count.
pub fn exit_step<'p, 'a>(f: &mut Frame<'p, 'a>) -> Result<End<'a>, Stop>
    ensures value { (p : CoreProgram) (choices : List ℕ) (free : defined.Move) (ts : List Ty) → Tells ts result f.new (λ g. steps.exit_step p choices free g (frame_of ts f.old)) }
{
    let x = operand(f)?;
    status_of(x)
}

fn failure_in<'a>(x: Scalar<'a>) -> Result<End<'a>, Stop>
    ensures value { (p : CoreProgram) (choices : List ℕ) (free : defined.Move) (ts : List Ty) (f : framed.Frame) → Tells ts result f (λ g below s. steps.failed_fatally p choices free g below s (scalar_of ts x.entry ∷ []) (frame_of ts f)) }
{
    match x {
        Scalar::Text(bytes) => Ok(End::Fatal(bytes)),
        _ => Err(Stop::NoStep),
    }
}

fn failure_of<'a>(cells: &[Scalar<'a>]) -> Result<End<'a>, Stop>
    ensures value { (p : CoreProgram) (choices : List ℕ) (free : defined.Move) (ts : List Ty) (f : framed.Frame) → Tells ts result f (λ g below s. steps.failed_fatally p choices free g below s (value_of ts cells.now) (frame_of ts f)) }
{
    match cells {
        [x] => failure_in(*x),
        _ => Err(Stop::NoStep),
    }
}

/// The end with a fatal error.
pub fn fatal_step<'p, 'a>(f: &mut Frame<'p, 'a>) -> Result<End<'a>, Stop>
    ensures value { (p : CoreProgram) (choices : List ℕ) (free : defined.Move) (ts : List Ty) → Tells ts result f.new (λ g. steps.fatal_step p choices free g (frame_of ts f.old)) }
{
    let x = operand(f)?;
    failure_of(x)
}
