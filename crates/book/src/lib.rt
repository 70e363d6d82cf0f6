// Tune books: a contents of tunes, then their bodies of cards (SPECIFICATION 5). Opening a book, finding a tune in it, reading its
// cards, and what is said of all cards of a tune.
#![tactic(auto)]

mod bodies;
mod contents;
mod entries;
mod fields;
mod pull;
mod reading;

pub use bodies::{add_delay, damaged_card, total_delay};
pub use contents::{LONGEST, open};
pub use entries::{Entry, Tune, tune_at};
pub use pull::{find_tune, tune_body, tune_offset, tune_place};
pub use reading::{Body, Reading, read_card};
