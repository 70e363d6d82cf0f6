// What every program here does with the world outside: it reads its input whole, prints a text, and says in a line on standard error what failed.
// No contract can say which bytes are read or written: of a read or a write the standard library promises no more than how many they can be.
#![tactic(auto)]

mod failure;
mod input;
mod output;

pub use input::{read_book, read_input};
pub use output::print;
