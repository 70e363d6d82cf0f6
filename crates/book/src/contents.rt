// Open: whether a file is a tune book, tested in a fixed order.
//
ghost use Rattle.std.specs.Prelude.{◌≡◌, ◌<◌};
ghost use Rattle.refusal.specs.Replies.{reply, reply_with};
ghost use Rattle.book.specs.Options.{option_of};
ghost use Rattle.book.specs.Layout.{tunes, EntriesWithin};
ghost use Rattle.book.specs.Entries.{entry_fields};
ghost use Rattle.book.specs.Open.{size_bad, numbers_bad, bodies_bad, open_refusal};
ghost use Rattle.book.specs.Pull.{entry_of};

use crate::fields::{Fields, two_bytes};
use refusal::Refusal;

// A book has at most this many bytes.
pub const LONGEST: usize = 65536;

// Refusal 5: the file is too long, or too short for its contents.
#[tactic(auto, unfolding(crate::specs::Open::size_bad))]
fn size_bad(book: &[u8]) -> bool
    ensures { result ≡ size_bad book.now }
{
    LONGEST < book.len() || book.len() < 2 || book.len() < 2 + 8 * usize::from(two_bytes(book, 0))
}

// The contents of a book, whose entries are all there.
#[derive(Clone, Copy)]
pub(crate) struct Contents<'a> {
    pub book: &'a [u8],
    pub count: usize,
    ghost count_is: { count ≡ tunes book.now },
    ghost entries_within: { EntriesWithin book.now },
}

impl<'a> Contents<'a> {
    // Entry `e`, counted from 0.
    fn entry(&self, e: usize) -> Fields
        requires { e < self.now.count }
        ensures { result ≡ entry_fields self.now.book.now e }
    {
        Fields::of_entry(self.book, e)
    }

    // Refusal 6: some tune number is not 1 to 9,999, or not above the one before it.
    #[tactic(auto, using(crate::specs::ContentsLoops::numbers_loop))]
    fn numbers_bad(&self) -> bool
        ensures { result ≡ numbers_bad self.now.book.now }
    {
        let mut least = 1;
        for e in 0..self.count {
            let number = self.entry(e).number;
            if number < least || 9999 < number {
                return true;
            }
            least = number + 1;
        }
        false
    }

    // Refusal 7: some tune has no cards, some body does not begin where those before it end, or the last does not end with the file.
    #[tactic(auto, using(crate::specs::ContentsLoops::bodies_loop))]
    fn bodies_bad(&self) -> bool
        ensures { result ≡ bodies_bad self.now.book.now }
    {
        let mut end = 2 + 8 * self.count;
        for e in 0..self.count {
            let entry = self.entry(e);
            if entry.cards < 1 || entry.offset as usize != end {
                return true;
            }
            end += 12 * usize::from(entry.cards);
        }
        end != self.book.len()
    }

    // The entry that bears the tune number, or that there is none. A loop that ends by a `break` with what it found, and no `find`: document 01
    // names the form.
    pub(crate) fn find(&self, number: u32) -> Option<usize>
        ensures { option_of result ≡ entry_of self.now.book.now number }
    {
        let mut e = 0;
        loop {
            if self.count <= e {
                break None;
            }
            if u32::from(self.entry(e).number) == number {
                break Some(e);
            }
            e += 1;
        }
    }
}

// The count of tunes, or a refusal: 5, then 6 for all entries, then 7 (document 01: Open). A file of no bytes is a book of no tunes.
#[tactic(auto, using(crate::proofs::Accepted::tested), unfolding(crate::specs::Open::contents_refusal, refusal::specs::Replies::reply_with))]
pub fn open(book: &[u8]) -> Result<u32, Refusal>
    ensures { reply result ≡ reply_with 0 (open_refusal book.now) (tunes book.now) }
{
    if book.is_empty() {
        return Ok(0);
    }
    if size_bad(book) {
        return Err(Refusal::BookSize);
    }
    let contents = Contents {
        book,
        count: usize::from(two_bytes(book, 0)),
    };
    if contents.numbers_bad() {
        return Err(Refusal::TuneNumber);
    }
    if contents.bodies_bad() {
        return Err(Refusal::Layout);
    }
    Ok(contents.count as u32)
}
