//! Where a job's text is printed to.

ghost use Rattle.std.specs.Prelude.{◌≤◌, ◌^◌, ℕ, List, Option, Some};
ghost use Rattle.std.specs.Io.Buffered.{writer_inner};
ghost use Rattle.osjob.specs.Outputs.{Sends};

use ostrace::{MemorySink, Sink, WriteFailed, WriteSink};
use std::io::{BufWriter, Write};

/// A sink that may gather what it takes, and sends it off at a flush.
pub trait Output: Sink {
    // The bytes that were sent off, or `None` if the type does not say which.
    ghost sent: { Self → Option (List ℕ) };

    /// Sends off all that is gathered. If this is refused, it counts as a failed write.
    fn flush(&mut self) -> Result<(), WriteFailed>
        requires { Self.failed self.old ≤ 2 ^ 48 }
        ensures { Sends Self.taken sent Self.failed self.old self.new result };
}

impl<W: Write + Drop> Output for WriteSink<BufWriter<W>> {
    ghost sent = { λ out. W.contents (writer_inner out.writer) };

    fn flush(&mut self) -> Result<(), WriteFailed> {
        if self.writer.flush().is_err() {
            self.failed += 1;
            return Err(WriteFailed);
        }
        Ok(())
    }
}

impl Output for MemorySink {
    ghost sent = { λ out. Some out.bytes.items };

    // A sink in memory gathers nothing that is left to send off.
    fn flush(&mut self) -> Result<(), WriteFailed> {
        Ok(())
    }
}
