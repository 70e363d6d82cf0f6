// Decoding (document 01: Mend): the message near a card, computed from the card's spectrum. A card without damage is recognised first, by
// its spectrum or, for k = 1, its first symbol; else the error's coefficients are computed, by the equations that those of an error within the radius satisfy.
#![tactic(auto)]

mod decoding;
mod filling;
mod one;
mod single;
mod two;
mod window;

pub use decoding::{decode, decode_card, decode_tests};
pub use filling::{Filling, fill_found};
pub use one::solved_pair;
pub use single::residual;
pub use two::Affine;
pub use window::{Annihilator, determinant, ninth_product, numerator};
