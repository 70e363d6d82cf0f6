// What comes of a call, printed: the status, then the numbers given back, then the lists filled, with a space before all but the first.
// No contract can say what is written, and a write that fails is let go: what is not there is missed where the lines are compared.
use refusal::Refusal;
use std::fmt::Display;

// Numbers after the first.
pub(crate) fn list<T: Display>(out: &impl Print, numbers: &[T]) {
    for number in numbers {
        let _ = print!(out; " {number}");
    }
}

// The status of a call: 0, or the refusal.
pub(crate) fn outcome(out: &impl Print, of: Result<(), Refusal>) {
    let status = refusal::outcome_number(of);
    let _ = print!(out; "{status}");
}

// The status of a call, and the numbers that it gives back if it is done.
pub(crate) fn answer<T: Display + Drop, const N: usize>(
    out: &impl Print,
    of: Result<[T; N], Refusal>,
) {
    match of {
        Err(why) => outcome(out, Err(why)),
        Ok(numbers) => {
            outcome(out, Ok(()));
            list(out, &numbers);
        },
    }
}
