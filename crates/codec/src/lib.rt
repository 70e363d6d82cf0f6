// The code (SPECIFICATION 8.1 and 8.3): encoding a message, the test values of a card, its spectrum, and the tests that all operations on cards
// begin with. Decoding stands in a crate above.
#![tactic(auto)]

mod dimension;
mod encoding;
mod message;
mod packed;
mod slots;
mod spectra;
mod syndromes;
mod tests;

pub use dimension::Dimension;
pub use encoding::encode;
pub use message::Message;
pub use spectra::spectrum;
pub use syndromes::syndrome;
pub use tests::{lengths_fit, test_input, test_list};
