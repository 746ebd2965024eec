//! Where bytes are written to.

ghost use Rattle.std.specs.Prelude.{◌≡◌, ℕ, ◌+◌, ◌-◌, ◌^◌, ◌<◌, ◌≤◌, List, length, Option, Some, IfSome};
ghost use Rattle.std.specs.Io.KnownBytes.{Appends};
ghost use Rattle.ostrace.specs.Taken.{bytes_taken, count_after, is_failed_write, Writes};

use std::error::Error;
use std::fmt;
use std::io::Write;

/// A write failed: the sink refused the bytes, or took none of them.
#[derive(Clone, Copy, Debug, PartialEq, Eq)]
pub struct WriteFailed;

impl fmt::Display for WriteFailed {
    fn fmt<W: fmt::Write>(&self, f: &mut fmt::Formatter<W>) -> fmt::Result {
        f.write_str("a write failed")
    }
}

impl Error for WriteFailed {}

/// Takes bytes, and counts the writes that failed.
pub trait Sink {
    // The bytes that the sink has taken, or `None` where its type does not say.
    ghost taken: { Self → Option (List ℕ) };

    // How many writes failed.
    ghost failed: { Self → ℕ };

    /// Takes some of the bytes from their front, and returns how many. `None`, or 0 for a text that is
    /// not empty, is a failed write: the sink takes nothing, and `failed` is one higher.
    fn write(&mut self, bytes: &[u8]) -> Option<usize>
        requires { failed self.old < 2 ^ 48 }
        ensures bound { IfSome result (λ n. n ≤ length bytes.now) }
        ensures taken { Appends (taken self.old) (taken self.new) (bytes_taken result bytes.now) }
        ensures failed { failed self.new ≡ count_after (failed self.old) result bytes.now };
}

/// A sink over a stream. What it has taken is what the stream's type says of its contents.
#[derive(Drop)]
pub struct WriteSink<W> {
    pub writer: W,
    /// How many writes failed. A write of no bytes that takes 0 does not fail. Below 2^48 while the sink is written to.
    pub failed: u64,
}

impl<W> WriteSink<W> {
    /// A sink over a stream, before any write.
    pub fn new(writer: W) -> Self
        ensures stream { result.writer ≡ writer }
        ensures count { result.failed ≡ 0 }
    {
        WriteSink { writer, failed: 0 }
    }
}

impl<W: Write> Sink for WriteSink<W> {
    ghost taken = { λ s. W.contents s.writer };

    ghost failed = { λ s. s.failed };

    fn write(&mut self, bytes: &[u8]) -> Option<usize> {
        let taken = taken_by(&mut self.writer, bytes);
        if is_failed(taken, bytes) {
            self.failed += 1;
        }
        taken
    }
}

// Writes the bytes to the stream, once, and returns how many of them the stream took; `None` at an error.
fn taken_by<W: Write>(writer: &mut W, bytes: &[u8]) -> Option<usize>
    ensures bound { IfSome result (λ n. n ≤ length bytes.now) }
    ensures taken { Appends (W.contents writer.old) (W.contents writer.new)
        (bytes_taken result bytes.now) }
{
    match writer.write(bytes) {
        Ok(count) => Some(count),
        Err(_error) => None,
    }
}

// Whether a write of these bytes failed: by an error, or since it took none of them though there are some.
fn is_failed(taken: Option<usize>, bytes: &[u8]) -> bool
    ensures { result ≡ is_failed_write taken bytes.now }
{
    match taken {
        Some(count) => count == 0 && !bytes.is_empty(),
        None => true,
    }
}

/// Takes all bytes into memory. A failed allocation is a failed write.
#[derive(Drop)]
pub struct MemorySink {
    pub bytes: Vec<u8>,
    /// How many writes failed because memory ran out: below 2^48 as long as the sink is written to.
    pub failed: u64,
}

impl MemorySink {
    /// A new sink that holds these bytes and adds to them what is written. No write has failed yet.
    pub fn new(bytes: Vec<u8>) -> Self
        ensures given { result.bytes.items ≡ bytes.items }
        ensures count { result.failed ≡ 0 }
    {
        MemorySink { bytes, failed: 0 }
    }
}

impl Sink for MemorySink {
    ghost taken = { λ s. Some s.bytes.items };

    ghost failed = { λ s. s.failed };

    fn write(&mut self, bytes: &[u8]) -> Option<usize> {
        match self.bytes.extend_from_slice(bytes) {
            Ok(()) => Some(bytes.len()),
            Err(_error) => {
                self.failed += 1;
                None
            }
        }
    }
}

/// Writes all of the bytes, in as many writes as are needed, and stops at the first write that fails.
pub fn write_all<S: Sink>(out: &mut S, bytes: &[u8]) -> Result<(), WriteFailed>
    requires { S.failed out.old < 2 ^ 48 }
    ensures { Writes S.taken S.failed out.old out.new bytes.now result }
{
    let mut at = 0;
    while at < bytes.len() {
        match out.write(&bytes[at..]) {
            None => return Err(WriteFailed),
            Some(0) => return Err(WriteFailed),
            Some(count) => at += count,
        }
    }
    Ok(())
}
