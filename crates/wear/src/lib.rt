// Where wear gathers in a body: of all runs of so many cards, the first whose cards are worn most (SPECIFICATION 8.23). Each card is decoded once,
// whatever the width of the runs.
#![tactic(auto)]

mod runs;
mod sliding;

pub use runs::{Run, worst_run};
