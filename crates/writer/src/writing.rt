// The writer: tests first, then the book is filled.
ghost use Rattle.writer.specs.Writing.{Written};

use crate::tests::Lists;
use refusal::Refusal;
use text::Lent;

// Fills a lent book with contents and cards, or refuses and leaves it as it was. The lists come one by one, as the C interface lends them.
pub fn write_book(
    numbers: &[u16],
    counts: &[u16],
    strikes: &[u16],
    book: &mut [u8],
) -> Result<(), Refusal>
    ensures { Written numbers.now counts.now strikes.now book.old result book.new }
{
    let lists = Lists::new(numbers, counts, strikes, book.len())?;
    let mut lent = Lent::new(book);
    lists.write_contents(&mut lent);
    lists.write_cards(&mut lent);
    Ok(())
}
