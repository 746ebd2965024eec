//! One core's end of the mail, and the record of what it sent and took.

ghost use Rattle.std.specs.Prelude.{◌≡◌, IfOk, IfErr, OnOk, IfSome, IfNone};
ghost use Rattle.osmail.specs.Ends.{AreUnchanged, HasOneMore};

use osbase::{CoreId, Envelope, Letter};
use std::alloc::AllocError;

/// What an end did.
#[derive(Clone, Copy)]
pub enum MailStep {
    /// It sent a letter to this core.
    Sent(CoreId, Letter),
    /// It took a letter from this core.
    Taken(CoreId, Letter),
}

/// One core's end of the mail: from it the core sends to the others, and takes what they sent to it.
pub trait Mail {
    ghost use Rattle.osmail.specs.Ends.{Streams};

    /// What this end sent to each core, in order.
    ghost sent: { Self → Streams };

    /// What this end took from each core, in order.
    ghost taken: { Self → Streams };

    /// There is room to record what one more call sends or takes.
    ghost has_room: { Self → Type 0 };

    /// The type of what says which end it is. No call changes which end it is.
    ghost Which: { Type 0 };

    ghost which: { Self → Which };

    /// Makes room to record what one more call sends or takes.
    fn room(&mut self) -> Result<(), AllocError>
        ensures sent { AreUnchanged (sent self.old) (sent self.new) }
        ensures taken { AreUnchanged (taken self.old) (taken self.new) }
        ensures ok { OnOk result (has_room self.new) }
        ensures which { which self.new ≡ which self.old };

    /// Sends an envelope to a core, or hands it back and changes nothing.
    fn send(&mut self, to: CoreId, envelope: Envelope) -> Result<(), Envelope>
        requires { has_room self.old }
        ensures ok { OnOk result (HasOneMore to envelope.letter (sent self.old) (sent self.new)) }
        ensures err { IfErr result (λ e. (e ≡ envelope) × AreUnchanged (sent self.old) (sent self.new) × has_room self.new) }
        ensures taken { AreUnchanged (taken self.old) (taken self.new) }
        ensures which { which self.new ≡ which self.old };

    /// Takes the oldest envelope from a core, if one came.
    fn take(&mut self, from: CoreId) -> Option<Envelope>
        requires { has_room self.old }
        ensures some { IfSome result (λ e. HasOneMore from e.letter (taken self.old) (taken self.new)) }
        ensures none { IfNone result (AreUnchanged (taken self.old) (taken self.new) × has_room self.new) }
        ensures sent { AreUnchanged (sent self.old) (sent self.new) }
        ensures which { which self.new ≡ which self.old };
}
