//! What is right about a part of a text.

ghost use Rattle.std.specs.Prelude.{◌≡◌};
ghost use Rattle.osvalidate.specs.Verdict.{all_right, both, with_names};

/// What is right about a part of a text, in the order of the faults.
#[derive(Clone, Copy, PartialEq, Eq)]
pub struct Verdict {
    /// Each name has its object.
    pub known: bool,
    /// No object of another core is named where only a core's own may be.
    pub near: bool,
    /// Each mask is in its range.
    pub masked: bool,
    /// Operations are well-formed and in range, and jump within their scripts. Actions are well-formed. ISRs use no
    /// resource.
    pub formed: bool,
}

impl Verdict {
    /// The verdict that nothing is wrong.
    pub fn all_right() -> Self
        ensures { result ≡ all_right }
    {
        Verdict {
            known: true,
            near: true,
            masked: true,
            formed: true,
        }
    }

    /// The verdict on two parts together, by the verdict on each.
    pub fn and(self, other: Verdict) -> Self
        ensures { result ≡ both self other }
    {
        Verdict {
            known: self.known & other.known,
            near: self.near & other.near,
            masked: self.masked & other.masked,
            formed: self.formed & other.formed,
        }
    }

    /// The verdict on the same part, after further names of the part are judged. `are_known` says whether these are
    /// known.
    pub fn with_names(self, are_known: bool) -> Self
        ensures { result ≡ with_names are_known self }
    {
        Verdict {
            known: are_known & self.known,
            near: self.near,
            masked: self.masked,
            formed: self.formed,
        }
    }
}

/// A part of a text as it is read, and what is right about it.
#[derive(Drop)]
pub struct Judged<T> {
    pub value: T,
    pub verdict: Verdict,
}
