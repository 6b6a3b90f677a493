//! What ends the steps of a run.

use gj_base::SinkError;
use js_steps::frames::frame::{End, Halt};

/// What ends the steps of a run.
#[derive(Clone, Copy)]
pub enum Stop<'a> {
    /// The sink failed.
    WriteFault,
    /// An allocation was refused.
    NoMemory,
    Over(End<'a>),
}

impl<'a> From<Halt<'a>> for Stop<'a> {
    ghost use Rattle.std.specs.Prelude.{◌≡◌};
    ghost use Rattle.js_run.specs.Stops.{stop_of};

    ghost from_gives = { λ e r. r ≡ stop_of e };

    fn from(e: Halt<'a>) -> Stop<'a> {
        match e {
            Halt::NoMemory => Stop::NoMemory,
            Halt::Over(end) => Stop::Over(end),
        }
    }
}

impl<'a> From<SinkError> for Stop<'a> {
    ghost use Rattle.std.specs.Prelude.{◌≡◌};
    ghost use Rattle.js_run.specs.Stops.{sink_stop};

    ghost from_gives = { λ e r. r ≡ sink_stop e };

    fn from(e: SinkError) -> Stop<'a> {
        match e {
            SinkError::Failed => Stop::WriteFault,
            SinkError::NoMemory => Stop::NoMemory,
        }
    }
}
