// Decoding of cards with dead lines (document 02, P4): rows and columns that the reader names count for nothing, and what is left is decoded.
#![tactic(auto)]

mod blank;
mod card;
mod decoding;
mod fractions;
mod masks;
mod roots;
mod solving;
mod steps;
mod tries;

pub use decoding::decode_dead;
