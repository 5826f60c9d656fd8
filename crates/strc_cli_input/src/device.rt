// Where input comes from and output is stored in, with a memory of the first error.

ghost use Rattle.std.specs.Prelude.{◌≡◌, ◌<◌, ◌≤◌, ◌+◌, ◌-◌, ℕ, List, Bool, true, false, Option};
ghost use Rattle.std.specs.Prelude.{None, length, IfOk, OnOk, OnErr};
ghost use Rattle.std.specs.Io.{ReadsAtMost};
ghost use Rattle.std.specs.Io.KnownBytes.{WriteAppends, ReadConsumes};

use std::io;
use std::io::{ErrorKind, Read, Write};

/// Where the input items come from.
pub trait Source {
    /// The bytes that reads will give, where they are known.
    ghost remaining: { Self → Option (List ℕ) };

    /// Whether a read has failed.
    ghost has_failed: { Self → Bool };

    /// How many reads are still allowed.
    ghost reads_left: { Self → ℕ };

    /// Reads some bytes, 0 only at the end. With no reads left it is an error; else one fewer is
    /// left, whatever comes of it.
    fn read(&mut self, buffer: &mut [u8]) -> io::Result<usize>
        ensures bound { ReadsAtMost result buffer.new }
        ensures bytes { ReadConsumes (remaining self.old) (remaining self.new) result buffer.new }
        ensures left { reads_left self.new ≡ reads_left self.old - 1 }
        ensures ok { OnOk result ((has_failed self.new ≡ has_failed self.old)
            × (0 < reads_left self.old)) }
        ensures err { OnErr result (has_failed self.new ≡ true) };

    /// Whether a read has failed: true from the first error on.
    fn failed(&self) -> bool
        ensures { result ≡ has_failed self.now };

    /// How many reads are still allowed.
    fn left(&self) -> u64
        ensures { result ≡ reads_left self.now };
}

/// Where the output goes.
pub trait Sink {
    /// The bytes that it has taken, where they are known.
    ghost contents: { Self → Option (List ℕ) };

    /// Whether a write has failed.
    ghost has_failed: { Self → Bool };

    /// Takes some of the bytes, and not 0 of some.
    fn write(&mut self, bytes: &[u8]) -> io::Result<usize>
        ensures bound { IfOk result (λ n. (n ≤ length bytes.now) × (0 < length bytes.now → 0 < n)) }
        ensures bytes { WriteAppends (contents self.old) (contents self.new) result bytes.now }
        ensures ok { OnOk result (has_failed self.new ≡ has_failed self.old) }
        ensures err { OnErr result (has_failed self.new ≡ true) };

    /// Whether a write has failed: true from the first error on.
    fn failed(&self) -> bool
        ensures { result ≡ has_failed self.now };
}

/// A reader or a writer that remembers its first error and counts its reads.
#[derive(Drop)]
pub struct Told<T> {
    device: T,
    failed: bool,
    left: u64,
}

impl<T> Told<T> {
    /// A device that has not failed, with 4,294,967,296 reads to go.
    pub fn new(device: T) -> Told<T>
        ensures { result ≡ record { device = device; failed = false; left = 4294967296 } }
    {
        Told {
            device,
            failed: false,
            left: 4294967296,
        }
    }

    /// The device.
    pub fn into_device(self) -> T
        ensures { result ≡ self.device }
    {
        let Told {
            device,
            failed: _,
            left: _,
        } = self;
        device
    }
}

impl<R: Read> Source for Told<R> {
    ghost remaining = { λ t. R.remaining t.device };

    ghost has_failed = { λ t. t.failed };

    ghost reads_left = { λ t. t.left };

    fn read(&mut self, buffer: &mut [u8]) -> io::Result<usize> {
        if self.left == 0 {
            self.failed = true;
            return Err(io::Error::new(ErrorKind::Other, "too many reads"));
        }
        self.left -= 1;
        let outcome = self.device.read(buffer);
        if outcome.is_err() {
            self.failed = true;
        }
        outcome
    }

    fn failed(&self) -> bool {
        self.failed
    }

    fn left(&self) -> u64 {
        self.left
    }
}

impl<W: Write> Sink for Told<W> {
    ghost contents = { λ t. W.contents t.device };

    ghost has_failed = { λ t. t.failed };

    fn write(&mut self, bytes: &[u8]) -> io::Result<usize> {
        match self.device.write(bytes) {
            Ok(0) if !bytes.is_empty() => {
                self.failed = true;
                Err(io::Error::new(ErrorKind::WriteZero, "the device takes no more"))
            }
            Ok(count) => Ok(count),
            Err(error) => {
                self.failed = true;
                Err(error)
            }
        }
    }

    fn failed(&self) -> bool {
        self.failed
    }
}
