// Tune books written from tune numbers, counts of cards and strikes (SPECIFICATION 8.13 and 8.14).
#![tactic(auto)]

mod bytes;
mod filling;
mod size;
mod tests;
mod writing;

pub use size::book_size;
pub use writing::write_book;
