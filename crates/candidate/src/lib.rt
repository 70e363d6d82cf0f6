// Candidates of decoding (document 01: Mend): a message read off the coefficients of a polynomial, and checked against a card; and cards without
// damage, whose message needs no computing.
#![tactic(auto)]

mod card;
mod checking;
mod found;
mod message;
mod shape;

pub use card::{Card, Received};
pub use checking::{difference, near};
pub use found::Found;
pub use message::read_message;
pub use shape::{clean, is_word, undamaged};
