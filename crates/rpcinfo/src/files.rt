//! What files have.
use rb_show::InfoFault;
use std::alloc::Global;
use std::fs;
use std::io::{ErrorKind, Read};
use std::rt::Files;

/// The first bytes of a file, at most `most`. There are none if the file can't be read.
pub fn text_of<F: Files>(
    alloc: Global,
    files: &F,
    path: &str,
    most: u64,
) -> Result<Vec<u8>, InfoFault> {
    let mut text = Vec::new(alloc);
    let Ok(file) = fs::open(files, path) else {
        return Ok(text);
    };
    match file.take(most).read_to_end(&mut text) {
        Ok(_) => Ok(text),
        Err(error) if error.kind() == ErrorKind::OutOfMemory => Err(InfoFault::Memory),
        Err(_) => Ok(Vec::new(alloc)),
    }
}
