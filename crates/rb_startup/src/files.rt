//! Files of the system that are read whole.
use std::alloc::Global;
use std::fs::{self, Files};
use std::io;
use std::io::Read;

/// The most bytes of a file that are read.
const LONGEST: u64 = 1_048_576;

/// The text of the file at a path.
pub fn text_of<R: Files>(rt: &R, alloc: Global, path: &str) -> io::Result<Vec<u8>> {
    let file = fs::open(rt, path)?;
    let mut text = Vec::new(alloc);
    file.take(LONGEST).read_to_end(&mut text)?;
    Ok(text)
}
