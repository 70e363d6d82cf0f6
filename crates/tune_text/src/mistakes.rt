// The first mistake of a text.
ghost use Rattle.std.specs.Prelude.{◌≡◌, Some, None, if◌then◌else◌};
ghost use Rattle.tune_text.specs.Reading.{lines_said, mistake_of};
ghost use Rattle.tune_text.specs.Lines.{fits, fault_of};

use crate::lines::{Fault, Line};
use crate::scanning::Lines;

// The number of a line, counted from 1, and what is wrong with it.
#[derive(Clone, Copy, Debug, PartialEq, Eq)]
pub struct Mistake {
    pub line: u32,
    pub fault: Fault,
}

impl Line {
    // What is wrong with a line, if a tune has begun before it or not.
    fn fault(self, begun: bool) -> Option<Fault>
        ensures { result ≡ (if fits begun self then None else Some (fault_of self)) }
    {
        match self {
            Line::Strike(_) if !begun => Some(Fault::Early),
            Line::Wrong(fault) => Some(fault),
            _ => None,
        }
    }
}

// The first mistake of a text, if it has one.
pub(crate) fn find_mistake(lines: Lines<'_>) -> Option<Mistake>
    ensures { result ≡ mistake_of (lines_said lines.entry.text.now) }
{
    let mut begun = false;
    for (i, line) in lines.enumerate() {
        if let Some(fault) = line.fault(begun) {
            return Some(Mistake {
                line: i as u32 + 1,
                fault,
            });
        }
        begun |= line.begins_tune();
    }
    None
}
