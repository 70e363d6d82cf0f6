// The field of 729 elements in code (SPECIFICATION 1). A function takes any u16: a number stands for its remainder by 729.
#![tactic(auto)]

mod cubes;
mod products;
mod small;
mod sums;
mod tables;

pub use cubes::cube;
pub use products::{cube_product, inverse, log, logs, power, powers, product, quotient};
pub use small::{high, low, small_symbol};
pub use sums::{combination, difference, sum};
