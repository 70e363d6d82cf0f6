// What a listing says of a tune: the tune, each of its cards, and its length (SPECIFICATION 9.1), written into a list that the caller lends.
#![tactic(auto)]

mod lines;
mod tunes;

pub use tunes::write_tune;
