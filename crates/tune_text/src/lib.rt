// Tunes read from a text: its words and lines, its first mistake, and the lists that a book is pressed from.
#![tactic(auto)]

mod lines;
mod mistake_lines;
mod mistakes;
mod scanning;
mod tunes;
mod words;

pub use lines::Fault;
pub use mistakes::Mistake;
pub use tunes::{LONGEST, Sizes, Unread, read_tunes};
