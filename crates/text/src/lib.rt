// Texts that programs print, written into a list that the caller lends: words, decimal numbers, and the line of a refused book.
#![tactic(auto)]

mod lent;
mod writing;

pub use lent::Lent;
