// What failed, said on standard error.
ghost use Rattle.std.specs.Prelude.{◌≡◌};
ghost use Rattle.std.specs.Result.{result_ok};

use std::fmt::InlineText;
use std::io;

// Room for the longest words that Linux has for an error, and for the number that the standard library adds.
const ROOM: usize = 128;

// The reason alone, without the number of a system's error.
fn reason(words: &str) -> &str {
    match words.split_once(" (os error ") {
        Some((alone, _)) => alone,
        None => words,
    }
}

// Writes a line: what failed, as the caller names it, a colon and the reason. If that fails too there is nobody left to tell.
fn fail(rt: &impl Eprint, what: &str, why: io::Error) {
    let words = InlineText::<ROOM>::of(why);
    let reason = reason(words.as_str());
    let _ = eprintln!(rt; "{what}: {reason}");
}

// What a step gave. If it failed there is nothing, and it is said what failed and why.
pub(crate) fn said<T: Drop>(rt: &impl Eprint, what: &str, step: io::Result<T>) -> Option<T>
    ensures { result ≡ result_ok step }
{
    step.map_err(|why| fail(rt, what, why)).ok()
}
