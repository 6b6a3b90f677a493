//! What a command comes to.

ghost use Rattle.std.specs.Prelude.{◌≡◌};
ghost use Rattle.gj_command.specs.Outcome.{status_of};

use gj_base::Fault;

/// What a command comes to.
#[derive(Debug, Drop)]
pub enum Outcome {
    /// The command did its work.
    Done,
    /// A script that was run has ended with this status.
    Ended(u8),
    /// The source files break a rule here.
    Fault(Fault),
    /// The words ask for nothing that there is.
    Usage,
    /// The root or the script isn't there, or a read failed.
    ReadFault,
    /// A store or a write failed.
    WriteFault,
    /// The script file is longer than the limit.
    TooLong,
    /// The file is no script; the length of its longest prefix that begins one.
    BadScript(u32),
    /// The script's operation at this byte has no meaning.
    Stuck(u32),
    /// The script still goes on after so many ticks.
    Stopped(u64),
    NoMemory,
    /// Parts of the compiler contradict each other.
    Internal,
}

/// The status that the program ends with.
pub fn status_of(outcome: &Outcome) -> u8
    ensures { result ≡ status_of outcome.now }
{
    match outcome {
        Outcome::Done => 0,
        Outcome::Ended(code) => *code,
        Outcome::Fault(_) => 1,
        Outcome::Usage => 64,
        Outcome::ReadFault => 66,
        Outcome::WriteFault => 74,
        Outcome::TooLong => 65,
        Outcome::BadScript(_) => 65,
        Outcome::Stuck(_) => 70,
        Outcome::Stopped(_) => 75,
        Outcome::NoMemory => 71,
        Outcome::Internal => 70,
    }
}
