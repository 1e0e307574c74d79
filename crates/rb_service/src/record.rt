//! The file in which the events of `serve` are recorded.
use rb_files::new_file;
use rb_startup::StartFault;
use rb_turns::Turns;
use std::fs::Files;
use std::io::Write;

/// What is recorded goes to a file, as long as that takes it.
#[derive(Drop)]
pub struct Recorder<F: Write + Drop> {
    file: Option<F>,
}

impl<F: Write + Drop> Recorder<F> {
    /// Writes what was recorded and is not written yet: how the run begins, and what the last turn did. After a fault,
    /// which is said once, nothing more is recorded.
    pub fn write<D: Turns<R>, R, E: Write>(&mut self, daemon: &mut D, faults: &mut E) {
        let Some(file) = &mut self.file else {
            return;
        };
        if let Err(error) = daemon.write_record(file) {
            let _ = writeln!(faults, "rpcbind: write the record: {error}; it ends here");
            self.file = None;
        }
    }
}

// TAPE-5: The file of a record is made once all sockets are bound, and before the daemon says where
// it listens; its owner alone may read it.
/// Makes the file at the path, if there is one. An error if it can't be made.
pub fn make_record<'a, R: Files>(
    rt: &R,
    path: Option<&'a str>,
) -> Result<Recorder<R::File>, StartFault<'a>> {
    let Some(path) = path else {
        return Ok(Recorder { file: None });
    };
    match new_file(rt, path) {
        Ok(file) => Ok(Recorder { file: Some(file) }),
        Err(error) => Err(StartFault::Unmade(path, error)),
    }
}
