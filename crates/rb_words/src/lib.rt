//! What the words of the command line ask for, and the names of programs and the numbers that users write and read.
#![tactic(auto)]

mod number;
mod plan;
mod read;
mod refusal;
mod services;
mod shape;

pub use number::number_in;
pub use plan::{Layout, Listing, Plan, Request, Source, Way};
pub use read::read_words;
pub use refusal::{Expected, Refusal, Spot, write_refusal};
pub use services::{LONGEST_SERVICES, Service, name_of, number_of, read_services};
pub use shape::{Flag, Shape};
