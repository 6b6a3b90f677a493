//! Sinks: where output goes, piece by piece.

ghost use Rattle.gj_base.specs.Sink.{SinkState, Writes};

use thiserror::Error;

/// Why a write did not take the whole piece.
#[derive(Clone, Copy, Debug, PartialEq, Eq, Error)]
pub enum SinkError {
    /// The outside failed; the count of faults rose, and a prefix of the piece was appended.
    #[error("Failed")]
    Failed,
    /// The count of memory refusals rose, and nothing was appended.
    #[error("NoMemory")]
    NoMemory,
}

/// What takes bytes, with two counts that never fall: of faults and of memory refusals.
///
/// `state` is the bytes that it has taken, where the implementation tells them, with both counts.
pub trait Sink {
    ghost state: { Self → SinkState };

    /// Appends the whole piece.
    ///
    /// A device that takes nothing of a piece that isn't empty has failed.
    fn write(&mut self, piece: &[u8]) -> Result<(), SinkError>
        ensures { Writes result piece.now (state self.old) (state self.new) };
}
