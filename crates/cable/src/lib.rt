// Levels on the cable (SPECIFICATION 3.6): a symbol as a signed number and back, one by one and a card at a time, and a card received as samples.
#![tactic(auto)]

mod cards;
mod numbers;
mod receiving;

pub use cards::{levels, symbols};
pub use numbers::{signed, symbol};
pub use receiving::receive;
