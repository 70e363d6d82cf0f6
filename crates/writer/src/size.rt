// How long a book is. No sum overflows, however many counts there are: more than fit in a book are not added up.
ghost use Rattle.std.specs.Prelude.{◌≡◌};
ghost use Rattle.refusal.specs.Replies.{reply, reply_with};
ghost use Rattle.writer.specs.Writing.{book_length, size_refusal};

use book::LONGEST;
use refusal::Refusal;

// More entries of the contents are too long for a book, even without cards.
const MOST_TUNES: usize = 8191;

// How many bytes a book with these counts of cards has, or refusal 5.
pub fn book_size(counts: &[u16]) -> Result<u32, Refusal>
    ensures { reply result ≡ reply_with 0 (size_refusal counts.now) (book_length counts.now) }
{
    if MOST_TUNES < counts.len() {
        return Err(Refusal::BookSize);
    }
    let cards: usize = counts.iter().map(|&count| usize::from(count)).sum();
    let size = 2 + 8 * counts.len() + 12 * cards;
    if LONGEST < size {
        return Err(Refusal::BookSize);
    }
    Ok(size as u32)
}
