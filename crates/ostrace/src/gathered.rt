//! Text that is gathered before it is sent.

ghost use Rattle.std.specs.Prelude.{◌≡◌, ◌+◌, ◌^◌, ◌<◌, ◌≤◌, ◌++◌, ◌∷◌, [], length, nat_le};
ghost use Rattle.ostrace.specs.{Taken.Writes, Gathers.Gathers};
ghost use Rattle.ostrace_text.specs.Trace.{spaced};

use crate::copies::copy_bytes;
use crate::sinks::{Sink, WriteFailed, write_all};
use std::marker::Model;

/// How many bytes are gathered at most: more than a stream's own buffer holds, so that the stream copies none of them.
const ROOM: usize = 16384;

/// The bytes that are not sent yet, so that a sink gets a text in few writes.
#[derive(Drop)]
pub struct Gathered {
    bytes: [u8; ROOM],
    len: usize,
}

impl Model for Gathered {
    ghost use Rattle.std.specs.Prelude.{List, ℕ, ◌≤◌, take};
    ghost use Rattle.ostrace.specs.declared.gathered.TheConstants.{ROOM};

    ghost Value = { List ℕ };

    ghost view = { λ g. take g.len g.bytes };

    ghost invariant = { λ g. g.len ≤ ROOM };
}

impl Gathered {
    /// No byte yet.
    pub fn new() -> Self
        ensures { result ≡ [] }
    {
        Gathered {
            bytes: [0; ROOM],
            len: 0,
        }
    }

    // Whether there is room for `count` more bytes.
    #[inline(always)]
    fn has_room(&self, count: usize) -> bool
        ensures { result ≡ nat_le (length self.now + count) ROOM }
    {
        count <= ROOM - self.len
    }

    // Gathers these bytes, for which there is room.
    #[inline(always)]
    fn add(&mut self, bytes: &[u8])
        requires { length self.old + length bytes.now ≤ ROOM }
        ensures { self.new ≡ self.old ++ bytes.now }
    {
        let end = self.len + bytes.len();
        copy_bytes(&mut self.bytes[self.len..end], bytes);
        self.len = end;
    }

    /// Gathers these bytes. If there is no room for them, it first sends what is gathered.
    #[inline(always)]
    pub fn put<S: Sink>(&mut self, out: &mut S, bytes: &[u8]) -> Result<(), WriteFailed>
        requires { S.failed out.old < 2 ^ 48 }
        ensures { Gathers S.taken S.failed out.old out.new self.old self.new bytes.now result }
    {
        if self.has_room(bytes.len()) {
            self.add(bytes);
            return Ok(());
        }
        self.put_after_sending(out, bytes)
    }

    /// Gathers a text as `put` gathers bytes.
    #[inline(always)]
    pub fn put_text<S: Sink>(&mut self, out: &mut S, text: &str) -> Result<(), WriteFailed>
        requires { S.failed out.old < 2 ^ 48 }
        ensures { Gathers S.taken S.failed out.old out.new self.old self.new text.now result }
    {
        self.put(out, text.as_bytes())
    }

    /// Gathers two texts with a space between them, with one check for room.
    #[inline(always)]
    pub fn put_pair<S: Sink>(
        &mut self,
        out: &mut S,
        first: &str,
        second: &str,
    ) -> Result<(), WriteFailed>
        requires { S.failed out.old < 2 ^ 48 }
        ensures { Gathers S.taken S.failed out.old out.new self.old self.new
            (spaced (first.now ∷ second.now ∷ [])) result }
    {
        if self.has_room(first.len() + 1 + second.len()) {
            self.add(first.as_bytes());
            self.add(b" ");
            self.add(second.as_bytes());
            return Ok(());
        }
        self.put_parts(out, first, second)
    }

    // Gathers the same text as `put_pair`, with a check for each part.
    #[cold]
    #[inline(never)]
    fn put_parts<S: Sink>(
        &mut self,
        out: &mut S,
        first: &str,
        second: &str,
    ) -> Result<(), WriteFailed>
        requires { S.failed out.old < 2 ^ 48 }
        ensures { Gathers S.taken S.failed out.old out.new self.old self.new
            (spaced (first.now ∷ second.now ∷ [])) result }
    {
        self.put_text(out, first)?;
        self.put_text(out, " ")?;
        self.put_text(out, second)
    }

    // Sends what is gathered, and then gathers these bytes. More bytes than `ROOM` go straight to the sink.
    #[cold]
    #[inline(never)]
    fn put_after_sending<S: Sink>(&mut self, out: &mut S, bytes: &[u8]) -> Result<(), WriteFailed>
        requires { S.failed out.old < 2 ^ 48 }
        ensures { Gathers S.taken S.failed out.old out.new self.old self.new bytes.now result }
    {
        self.send(out)?;
        if bytes.len() > ROOM {
            return write_all(out, bytes);
        }
        self.add(bytes);
        Ok(())
    }

    /// Sends all that is gathered.
    pub fn send<S: Sink>(&mut self, out: &mut S) -> Result<(), WriteFailed>
        requires { S.failed out.old < 2 ^ 48 }
        ensures written { Writes S.taken S.failed out.old out.new self.old result }
        ensures empty { self.new ≡ [] }
    {
        let result = write_all(out, &self.bytes[..self.len]);
        self.len = 0;
        result
    }
}
