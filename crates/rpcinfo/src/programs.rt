//! The file of names of programs.
use crate::command_line::{needs_names, programs_path};
use crate::files::text_of;
use clap::ArgMatches;
use rb_show::InfoFault;
use rb_words::{LONGEST_SERVICES, Service, read_services};
use std::alloc::Global;
use std::rt::Files;

/// The names of programs in a file.
fn services_at<F: Files>(alloc: Global, files: &F, path: &str) -> Result<Vec<Service>, InfoFault> {
    let text = text_of(alloc, files, path, LONGEST_SERVICES as u64 + 1)?;
    match read_services(alloc, &text) {
        Ok(services) => Ok(services),
        Err(_) => Err(InfoFault::Memory),
    }
}

/// The names of programs that the words want. The file is read only if they want some.
pub fn services_for<F: Files>(
    alloc: Global,
    files: &F,
    matches: &ArgMatches<'_>,
) -> Result<Vec<Service>, InfoFault> {
    match needs_names(alloc, matches) {
        Ok(true) => services_at(alloc, files, programs_path(matches)),
        Ok(false) => Ok(Vec::new(alloc)),
        Err(_) => Err(InfoFault::Memory),
    }
}
