// What comes of a text of tunes: a book, or the line that says why there is none (SPECIFICATION 8.16). The program `press_book` prints it.
#![tactic(auto)]

mod from_lists;
mod texts;

pub use from_lists::{LONGEST_LINE, Lengths};
pub use texts::press;
