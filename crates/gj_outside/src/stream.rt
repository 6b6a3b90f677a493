//! Standard output and standard error. This is the trusted edge: it tells no content, and no clause
//! says what a terminal shows.

ghost use Rattle.std.specs.Prelude.{◌≡◌, None};

use gj_base::{Sink, SinkError};

/// A standard stream.
#[derive(Drop)]
pub struct StdSink<P: Drop> {
    stream: P,
    faults: u64,
}

impl<P: Print + Drop> StdSink<P> {
    /// The stream, of which no write has failed.
    pub fn new(stream: P) -> StdSink<P>
        ensures counts { result.faults ≡ 0 }
    {
        StdSink { stream, faults: 0 }
    }
}

impl<P: Print + Drop> Sink for StdSink<P> {
    ghost state = { λ s. record { bytes = None; faults = s.faults; refusals = 0 } };

    fn write(&mut self, piece: &[u8]) -> Result<(), SinkError> {
        match self.stream.write_all(piece) {
            Ok(()) => Ok(()),
            Err(_) => {
                self.faults = self.faults.saturating_add(1);
                Err(SinkError::Failed)
            }
        }
    }
}

#[cfg(test)]
mod tests {
    use super::*;
    use std::test::Fail;

    #[test]
    fn writes_to_standard_output(rt: HostRuntime) -> Result<(), Fail> {
        let mut sink = StdSink::new(rt.stdout());
        sink.write(b"a line of a test\n")?;
        Ok(())
    }
}
