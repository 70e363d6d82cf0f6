// What is said of a text that is not read, written into a lent list.
ghost use Rattle.std.specs.Prelude.{◌≡◌};
ghost use Rattle.text.specs.Writing.{HasRoom, Writes};
ghost use Rattle.tune_text.specs.MistakeLines.{fault_words, mistake_line, unread_line};

use crate::lines::Fault;
use crate::mistakes::Mistake;
use crate::tunes::Unread;
use text::Lent;

impl Fault {
    // What is wrong with a line.
    fn words(self) -> &'static [u8]
        ensures { result.now ≡ fault_words self }
    {
        match self {
            Fault::TuneNumber => b"a tune needs one number",
            Fault::Unknown => b"neither a tune nor a strike of three numbers",
            Fault::Early => b"a strike before the first tune",
        }
    }
}

impl Mistake {
    // The line for a mistake.
    #[tactic(auto, using(text::proofs::WritingLaws::writing), unfolding(crate::specs::MistakeLines::mistake_line))]
    pub fn write(self, line: &mut Lent<'_, u8>)
        requires { HasRoom line.old (mistake_line self) }
        ensures { Writes line.old (mistake_line self) line.new }
    {
        line.extend_from_slice(b"line");
        line.push_spaced(self.line);
        line.extend_from_slice(b": ");
        line.extend_from_slice(self.fault.words());
        line.push(b'\n');
    }
}

impl Unread {
    // What is said of a text that is not read. A refusal has no line.
    pub fn write(self, line: &mut Lent<'_, u8>)
        requires { HasRoom line.old (unread_line self) }
        ensures { Writes line.old (unread_line self) line.new }
    {
        match self {
            Unread::TooLong => line.extend_from_slice(b"text refused: more than 131072 bytes\n"),
            Unread::Refused(_) => {},
            Unread::Wrong(mistake) => mistake.write(line),
        }
    }
}
