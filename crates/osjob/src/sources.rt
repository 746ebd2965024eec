//! Where a job's files come from.

ghost use Rattle.std.specs.Prelude.{◌≡◌, ◌+◌, ◌<◌, ◌≤◌, ℕ, List, OnOk, Option, Some, length, max, option_map};
ghost use Rattle.osjob.specs.Texts.{File, KeepsBelow, bytes_at};

use std::alloc::AllocError;

/// The files of a job in the order in which they are judged, each read when it is needed.
pub trait Source {
    // The files as far as they are read.
    ghost files: { Self → List File };

    // All files, or `None` if the type does not know them before they are read.
    ghost known: { Self → Option (List File) };

    // How many files there are.
    ghost count: { Self → ℕ };

    /// Reads the file in this place, if it exists, and none after it. The files before it have been read
    /// already, and do not change.
    fn read(&mut self, at: usize) -> Result<(), AllocError>
        requires { at ≤ length (files self.old) }
        ensures filled { OnOk result (at < count self.new → at < length (files self.new)) }
        ensures ahead { length (files self.new) ≤ max (length (files self.old)) (at + 1) }
        ensures stays { length (files self.old) ≤ length (files self.new) }
        ensures count { count self.new ≡ count self.old }
        ensures keeps { KeepsBelow at (files self.old) (files self.new) }
        ensures known { known self.new ≡ known self.old };

    /// The bytes of the file in this place, which has been read already; `None` if it could not be read or does
    /// not exist.
    fn bytes(&self, at: usize) -> Option<&[u8]>
        requires { at < count self.now → at < length (files self.now) }
        ensures { option_map (λ bytes. bytes.now) result ≡ bytes_at (files self.now) at };
}

/// Files that are read already.
#[derive(Clone, Copy)]
pub struct Given<'a> {
    pub files: &'a [Option<Vec<u8>>],
}

impl<'a> Source for Given<'a> {
    ghost files = { λ given. given.files.now };

    ghost known = { λ given. Some given.files.now };

    ghost count = { λ given. length given.files.now };

    fn read(&mut self, _at: usize) -> Result<(), AllocError> {
        Ok(())
    }

    fn bytes(&self, at: usize) -> Option<&[u8]> {
        bytes_at(self.files, at)
    }
}

/// The bytes of the file in a place, if it exists and could be read.
pub fn bytes_at<'a>(files: &'a [Option<Vec<u8>>], at: usize) -> Option<&'a [u8]>
    ensures { option_map (λ bytes. bytes.now) result ≡ bytes_at files.now at }
{
    match files.get(at) {
        Some(Some(bytes)) => Some(bytes.as_slice()),
        _ => None,
    }
}
