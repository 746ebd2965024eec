//! Files on disk as bytes.

ghost use Rattle.std.specs.Prelude.{◌≡◌, ◌+◌, [], IfOk, None, length};
ghost use Rattle.osjob.specs.{declared.files.TheConstants.LARGEST, declared.files.TheConstants.PIECE, Files.HasFewerThan};

use crate::sources::{Source, bytes_at};
use std::alloc::{AllocError, Global};
use std::fs::File;
use std::io::Read;
use std::rt::Files;

/// If a file has more bytes than this, its read may fail as if memory ran out.
pub const LARGEST: usize = 1 << 30;

/// How many bytes are read at once.
const PIECE: usize = 65536;

/// What became of a file.
#[derive(Drop)]
pub enum Reading {
    Bytes(Vec<u8>),
    Unreadable,
}

/// Reads a whole file. Answers `Unreadable` if it cannot be opened or read. If more bytes follow after at least
/// `LARGEST` bytes, fails as if memory ran out, so that the reading of an endless stream ends.
pub fn read_file<R: Files + AllocGlobal>(rt: &R, path: &str) -> Result<Reading, AllocError>
    ensures { IfOk result (HasFewerThan (LARGEST + PIECE)) }
{
    let Ok(mut file) = File::open(rt, path) else {
        return Ok(Reading::Unreadable);
    };
    let mut bytes = Vec::new(rt.alloc());
    let mut piece = [0u8; PIECE];
    for _ in 0..u64::MAX {
        let Ok(count) = file.read(&mut piece) else {
            return Ok(Reading::Unreadable);
        };
        if count == 0 {
            break;
        }
        if bytes.len() >= LARGEST {
            return Err(AllocError);
        }
        bytes.extend_from_slice(&piece[..count])?;
    }
    Ok(Reading::Bytes(bytes))
}

/// The files at these paths. No file is opened before it is needed.
#[derive(Drop)]
pub struct Paths<'r, 'p, R> {
    rt: &'r R,
    paths: Vec<&'p str>,
    files: Vec<Option<Vec<u8>>>,
}

impl<'r, 'p, R: Files + AllocGlobal> Paths<'r, 'p, R> {
    /// Makes a source that has read no file yet.
    pub fn new(rt: &'r R, paths: Vec<&'p str>) -> Self
        ensures files { result.files.items ≡ [] }
        ensures paths { result.paths ≡ paths.entry }
    {
        Paths {
            rt,
            paths,
            files: Vec::new(rt.alloc()),
        }
    }
}

impl<'r, 'p, R: Files + AllocGlobal> Source for Paths<'r, 'p, R> {
    ghost files = { λ paths. paths.files.items };

    ghost known = { λ _. None };

    ghost count = { λ paths. length paths.paths.items };

    fn read(&mut self, at: usize) -> Result<(), AllocError> {
        if at < self.files.len() {
            return Ok(());
        }
        if let Some(path) = self.paths.get(at) {
            let file = match read_file(self.rt, path)? {
                Reading::Bytes(bytes) => Some(bytes),
                Reading::Unreadable => None,
            };
            self.files.push(file)?;
        }
        Ok(())
    }

    fn bytes(&self, at: usize) -> Option<&[u8]> {
        bytes_at(self.files.as_slice(), at)
    }
}
