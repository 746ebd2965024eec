//! The bytes of a job's files.

use std::alloc::{AllocError, Global};

/// The files of these texts. Where there is no text, the file is one that could not be read.
pub fn files_of(alloc: Global, texts: &[Option<&str>]) -> Result<Vec<Option<Vec<u8>>>, AllocError> {
    let mut files = Vec::new(alloc);
    for text in texts {
        files.push(file_of(alloc, *text)?)?;
    }
    Ok(files)
}

/// The file of this text. Without a text, the file is one that could not be read.
pub fn file_of(alloc: Global, text: Option<&str>) -> Result<Option<Vec<u8>>, AllocError> {
    match text {
        Some(text) => Ok(Some(Vec::from_slice(alloc, text.as_bytes())?)),
        None => Ok(None),
    }
}
