// The lists that a book is written from, and what the writer refuses, tested in its order: 10, 2 for the counts, 5, 6, 7, 2 for the strikes
// and the lent book.
ghost use Rattle.std.specs.Prelude.{◌≡◌, false, ◌≤◌, length, IfOk};
ghost use Rattle.refusal.specs.Replies.{outcome};
ghost use Rattle.strike.specs.Turns.{strikes_bad};
ghost use Rattle.book.specs.Layout.{longest_book};
ghost use Rattle.book.specs.Open.{rising};
ghost use Rattle.writer.specs.Writing.{book_length, write_refusal};

use crate::size::book_size;
use refusal::Refusal;

// Tune numbers, counts of cards, and the numbers of all strikes. The strikes are in range, and a book has room for their cards.
#[derive(Clone, Copy)]
pub(crate) struct Lists<'a> {
    pub(crate) numbers: &'a [u16],
    pub(crate) counts: &'a [u16],
    pub(crate) strikes: &'a [u16],
    ghost strikes_good: { strikes_bad strikes.now ≡ false },
    ghost same_length: { length counts.now ≡ length numbers.now },
    ghost book_fits: { book_length counts.now ≤ longest_book },
}

// Whether the tune numbers are 1 to 9,999 and strictly rising; else refusal 6.
#[tactic(auto, using(std::proofs::lemmas::Bool::Decides::nat_tests, book::specs::ContentsLoops::rising_next, book::specs::ContentsLoops::rising_end))]
fn numbers_rise(numbers: &[u16]) -> bool
    ensures { result ≡ rising 1 numbers.now }
{
    let mut least = 1;
    for &number in numbers {
        if !(least..=9999).contains(&number) {
            return false;
        }
        least = number + 1;
    }
    true
}

impl<'a> Lists<'a> {
    // All tests, of the lists and of the length of the lent book. For the twelve bytes of a card there are three numbers of a strike.
    #[tactic(auto, using(std::proofs::lemmas::Bool::Decides::nat_tests, crate::proofs::Tested::size_is_over), unfolding(crate::specs::Writing::write_refusal))]
    pub(crate) fn new(
        numbers: &'a [u16],
        counts: &'a [u16],
        strikes: &'a [u16],
        room: usize,
    ) -> Result<Lists<'a>, Refusal>
        ensures tested { outcome result ≡ write_refusal numbers.now counts.now strikes.now room }
        ensures lists { IfOk result
            (λ l. (l.numbers.now ≡ numbers.now) × (l.counts.now ≡ counts.now) × (l.strikes.now ≡ strikes.now)) }
    {
        if strike::strikes_bad(strikes) {
            return Err(Refusal::StrikeField);
        }
        if counts.len() != numbers.len() {
            return Err(Refusal::Length);
        }
        let size = book_size(counts)? as usize;
        if !numbers_rise(numbers) {
            return Err(Refusal::TuneNumber);
        }
        if counts.contains(&0) {
            return Err(Refusal::Layout);
        }
        let bodies = size - 2 - 8 * counts.len();
        if strikes.len() != bodies / 4 || room != size {
            return Err(Refusal::Length);
        }
        Ok(Lists {
            numbers,
            counts,
            strikes,
        })
    }
}
