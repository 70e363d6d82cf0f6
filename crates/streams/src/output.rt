// The output of a program. No contract can say which bytes of a text arrive: the standard library promises of a write how many it took at most.
ghost use Rattle.std.specs.Prelude.{◌≡◌, ◌<◌, ◌≤◌, length, drop, IfSome};

use crate::failure::said;
use std::io;

// What is left of a text from a place on.
fn remaining(text: &[u8], at: usize) -> &[u8]
    requires { at ≤ length text.now }
    ensures { result.now ≡ drop at text.now }
{
    &text[at..]
}

// One write: how many of the bytes it took, at least one. If it took none it failed, and it is said why.
fn write_some(rt: &(impl Print + Eprint), text: &[u8]) -> Option<usize>
    ensures { IfSome result (λ taken. (0 < taken) × (taken ≤ length text.now)) }
{
    let written = match rt.write_some(text) {
        Ok(0) => Err(io::Error::from(io::ErrorKind::WriteZero)),
        written => written,
    };
    said(rt, "cannot write the output", written)
}

// Prints a text on standard output, and answers how many of its bytes were taken. A write that takes only a part is gone on with; after one
// that fails nothing more is written, so what arrives is always a beginning of the text. The library's `write_all` does not say how many bytes
// were taken before it failed.
pub fn print(rt: &(impl Print + Eprint), text: &[u8]) -> usize
    ensures { result ≤ length text.now }
{
    let mut left = text;
    while !left.is_empty() {
        let Some(taken) = write_some(rt, left) else {
            break;
        };
        left = remaining(left, taken);
    }
    text.len() - left.len()
}
