// A book pressed from lists that were read, or the line for its refusal.
ghost use Rattle.std.specs.Prelude.{◌≡◌, ◌≤◌, length};
ghost use Rattle.book.specs.Layout.{longest_book};
ghost use Rattle.text.specs.Writing.{Wrote, HasRoom, Writes};
ghost use Rattle.pressing.specs.Lists.{room_for, lists_book, lists_line};

use text::Lent;

// No line has more bytes than this.
pub const LONGEST_LINE: usize = 64;

// How many bytes the book has, and how many the line.
#[derive(Clone, Copy, Debug, PartialEq, Eq)]
pub struct Lengths {
    pub book: usize,
    pub line: usize,
}

// How long a book to lend the writer: as long as needed, or of no bytes if that is too long.
fn room_for(counts: &[u16]) -> usize
    ensures { result ≡ room_for counts.now }
{
    writer::book_size(counts).unwrap_or(0) as usize
}

// The book of these lists from the start of its list, or the line for what the writer refuses of them; and how long the book is. The writer is
// called even if the book is too long: it may refuse the strikes first.
pub(crate) fn press_lists(
    numbers: &[u16],
    counts: &[u16],
    strikes: &[u16],
    book: &mut [u8],
    line: &mut Lent<'_, u8>,
) -> usize
    requires book_room { longest_book ≤ length book.old }
    requires line_room { HasRoom line.old (lists_line numbers.now counts.now strikes.now) }
    ensures book_wrote { Wrote book.old 0 (lists_book numbers.now counts.now strikes.now) book.new result }
    ensures line_wrote { Writes line.old (lists_line numbers.now counts.now strikes.now) line.new }
{
    let size = room_for(counts);
    match writer::write_book(numbers, counts, strikes, &mut book[..size]) {
        Ok(()) => size,
        Err(why) => {
            line.push_book_refused(why.into());
            0
        }
    }
}
