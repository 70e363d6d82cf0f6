// Pull: the part of a book that is a tune's body, found by the tune number.
//
ghost use Rattle.std.specs.Prelude.{◌≡◌};
ghost use Rattle.algebra.specs.Search.{or_zero};
ghost use Rattle.refusal.specs.Replies.{outcome, reply, reply_with};
ghost use Rattle.book.specs.Pull.{entry_of, pull_refusal, pulled, pulled_from};

use crate::contents::{Contents, open};
use crate::entries::Entry;
use refusal::Refusal;

// The place in the contents of the entry that bears the tune number. As Open; then 8 if no entry has the number.
#[tactic(auto, using(crate::proofs::Pulled::pulling))]
pub fn tune_place(book: &[u8], number: u32) -> Result<u32, Refusal>
    ensures { reply result ≡ reply_with 0 (pull_refusal book.now number) (or_zero (entry_of book.now number)) }
{
    let count = open(book)? as usize;
    let contents = Contents { book, count };
    match contents.find(number) {
        Some(place) => Ok(place as u32),
        None => Err(Refusal::NoSuchTune),
    }
}

// Whether the tune is there (document 01: Pull). As Open; then 8 if no entry has the number.
pub fn find_tune(book: &[u8], number: u32) -> Result<(), Refusal>
    ensures { outcome result ≡ pull_refusal book.now number }
{
    Entry::find(book, number)?;
    Ok(())
}

// The tune's own part of the book (document 01: Pull). Empty exactly on a refusal.
pub fn tune_body(book: &[u8], number: u32) -> &[u8]
    ensures { result.now ≡ pulled book.now number }
{
    match Entry::find(book, number) {
        Ok(entry) => entry.body().bytes,
        Err(_) => &book[0..0],
    }
}

// Where the tune's own part begins in the book, counted from 0; 0 on a refusal. With the part's length this says in numbers what
// `tune_body` hands out as a slice.
pub fn tune_offset(book: &[u8], number: u32) -> u32
    ensures { result ≡ pulled_from book.now number }
{
    match Entry::find(book, number) {
        Ok(entry) => entry.offset(),
        Err(_) => 0,
    }
}
