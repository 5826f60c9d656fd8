// An output of which it is known whether its reader has gone away.

ghost use Rattle.std.specs.Prelude.{◌≡◌};

use crate::device::Sink;
use std::io;
use std::io::ErrorKind;

/// An output of which it is known whether its reader has gone away, as that of a pipe into `head`.
#[derive(Drop)]
pub struct WatchedOutput<O> {
    output: O,
    lost_reader: bool,
}

impl<O> WatchedOutput<O> {
    /// An output to which nothing is written.
    pub fn new(output: O) -> WatchedOutput<O>
        ensures { result.output ≡ output }
    {
        WatchedOutput {
            output,
            lost_reader: false,
        }
    }

    /// Whether a write failed since nobody reads any more.
    pub fn lost_reader(&self) -> bool
        ensures { result ≡ self.now.lost_reader }
    {
        self.lost_reader
    }
}

impl<O: Sink> Sink for WatchedOutput<O> {
    ghost contents = { λ w. O.contents w.output };

    ghost has_failed = { λ w. O.has_failed w.output };

    fn write(&mut self, bytes: &[u8]) -> io::Result<usize> {
        let outcome = self.output.write(bytes);
        if let Err(error) = &outcome {
            self.lost_reader = error.kind() == ErrorKind::BrokenPipe;
        }
        outcome
    }

    fn failed(&self) -> bool {
        self.output.failed()
    }
}
