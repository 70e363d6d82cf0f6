// Reports of a tune book: of each tune a text, in contents order, or one line where the book is refused (SPECIFICATION 9.1 and 9.3).
// The book is opened once.
#![tactic(auto)]

ghost use Rattle.std.specs.Prelude.{◌≡◌, length};
ghost use Rattle.refusal.specs.Replies.{reply, reply_with, unless};
ghost use Rattle.book.specs.Layout.{tunes};
ghost use Rattle.book.specs.Accepted.{Accepted};
ghost use Rattle.text.specs.Text.{joined, written, room_refusal};
ghost use Rattle.text.specs.Writing.{HasRoom, Writes};
ghost use Rattle.report.specs.Reports.{tune_report, report, longest};

use book::Entry;
use refusal::Refusal;
use text::Lent;

// What a report says of each tune: its cards, or where wear gathers. Callers hand over a kind, C one by its name: a trait would take two types and
// their laws, and a match on the kind all the same.
#[derive(Clone, Copy, Debug, PartialEq, Eq)]
pub enum Kind {
    Listing,
    Wear,
}

// No report has more bytes than this.
const LONGEST: usize = 131072;

impl Kind {
    // The text of the tune of an entry.
    fn write_tune(self, entry: &Entry<'_>, text: &mut Lent<'_, u8>)
        requires { HasRoom text.old (tune_report self entry.now.book.now entry.now.place) }
        ensures { Writes text.old (tune_report self entry.now.book.now entry.now.place) text.new }
    {
        match self {
            Kind::Listing => listing::write_tune(entry, text),
            Kind::Wear => wear_lines::write_tune(entry, text),
        }
    }

    // All tunes of an accepted book, in contents order.
    fn write_tunes(self, book: &[u8], count: usize, text: &mut Lent<'_, u8>)
        requires accepted { Accepted book.now }
        requires count_is { count ≡ tunes book.now }
        requires room { HasRoom text.old (joined (tune_report self book.now) (tunes book.now)) }
        ensures { Writes text.old (joined (tune_report self book.now) (tunes book.now)) text.new }
    {
        for place in 0..count {
            self.write_tune(&Entry { book, place }, text);
        }
    }

    // The report, where there is room for it.
    fn write(self, book: &[u8], text: &mut Lent<'_, u8>)
        requires { HasRoom text.old (report self book.now) }
        ensures { Writes text.old (report self book.now) text.new }
    {
        match book::open(book) {
            Ok(count) => self.write_tunes(book, count as usize, text),
            Err(why) => text.push_book_refused(why.into()),
        }
    }
}

// The report of a book at the start of `text`, and how many bytes it has; or refusal 2, if `text` is shorter than the longest report.
pub fn write_report(kind: Kind, book: &[u8], text: &mut [u8]) -> Result<u32, Refusal>
    ensures answers { reply result ≡ reply_with 0 (room_refusal longest text.old) (length (report kind book.now)) }
    ensures text_after { text.new ≡ unless (room_refusal longest text.old) (written text.old 0 (report kind book.now)) text.old }
{
    if text.len() < LONGEST {
        return Err(Refusal::Length);
    }
    let mut lent = Lent::new(text);
    kind.write(book, &mut lent);
    Ok(lent.at as u32)
}
