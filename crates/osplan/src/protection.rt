//! How a core answers a time fault.

ghost use Rattle.std.specs.Prelude.{◌≡◌};
ghost use Rattle.osplan.specs.Protection.{protection_named, protection_word};

/// How a core answers when a job has used up its execution budget, or a resource's lock budget (AUTOSAR SWS OS 4.x,
/// ProtectionReturnType). Each answer but `TerminateTaskIsr` shuts the core down.
#[derive(Clone, Copy, Debug, PartialEq, Eq)]
pub enum Protection {
    /// PRO_IGNORE, which a time fault does not allow (SWS_Os_00307).
    Ignore,
    /// PRO_TERMINATETASKISR: the job ends, and the core runs on.
    TerminateTaskIsr,
    /// PRO_TERMINATEAPPL. There are no OS-Applications.
    TerminateAppl,
    /// PRO_TERMINATEAPPL_RESTART. There are no OS-Applications.
    TerminateApplRestart,
    /// PRO_SHUTDOWN.
    Shutdown,
}

/// Every answer.
const PROTECTIONS: [Protection; 5] = [
    Protection::Ignore,
    Protection::TerminateTaskIsr,
    Protection::TerminateAppl,
    Protection::TerminateApplRestart,
    Protection::Shutdown,
];

impl Protection {
    /// The word for this answer in a configuration's text.
    pub fn word(self) -> &'static str
        ensures { result.now ≡ protection_word self }
    {
        match self {
            Protection::Ignore => "PRO_IGNORE",
            Protection::TerminateTaskIsr => "PRO_TERMINATETASKISR",
            Protection::TerminateAppl => "PRO_TERMINATEAPPL",
            Protection::TerminateApplRestart => "PRO_TERMINATEAPPL_RESTART",
            Protection::Shutdown => "PRO_SHUTDOWN",
        }
    }

    /// The answer that a word names, if there is one.
    pub fn named(word: &str) -> Option<Protection>
        ensures { result ≡ protection_named word.now }
    {
        PROTECTIONS
            .iter()
            .copied()
            .find(|protection| protection.word() == word)
    }
}
