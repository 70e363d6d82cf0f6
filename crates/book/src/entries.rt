// The tunes of a book by their places in the contents, counted from 0.
ghost use Rattle.std.specs.Prelude.{◌≡◌, IfOk};
ghost use Rattle.std.proofs.Math.Option.{some};
ghost use Rattle.refusal.specs.Replies.{outcome};
ghost use Rattle.book.specs.Layout.{offset, part_of};
ghost use Rattle.book.specs.Pull.{entry_of, pull_refusal};
ghost use Rattle.book.specs.Accepted.{AcceptedEntry};
ghost use Rattle.book.specs.Entries.{entry_fields, entry_tune, tune_reply, tune_at};

use crate::contents::open;
use crate::fields::Fields;
use crate::pull::tune_place;
use crate::reading::Body;
use refusal::Refusal;

// A tune of the contents: its number, and how many cards it has.
#[derive(Clone, Copy, Debug, PartialEq, Eq)]
pub struct Tune {
    pub number: u32,
    pub cards: u32,
}

// An entry of the contents of a book that Open accepts, by its place.
#[derive(Clone, Copy)]
pub struct Entry<'a> {
    pub book: &'a [u8],
    pub place: usize,
    pub ghost accepted: { AcceptedEntry book.now place },
}

impl<'a> Entry<'a> {
    // The entry that bears the tune number. As Open; then 8 if no entry has the number.
    pub fn find(book: &'a [u8], number: u32) -> Result<Entry<'a>, Refusal>
        ensures refusal { outcome result ≡ pull_refusal book.now number }
        ensures found { IfOk result (λ entry. (entry.book.now ≡ book.now) × (entry_of book.now number ≡ some entry.place)) }
    {
        let place = tune_place(book, number)? as usize;
        Ok(Entry { book, place })
    }

    // What the contents says of it.
    fn fields(&self) -> Fields
        ensures { result ≡ entry_fields self.now.book.now self.now.place }
    {
        Fields::of_entry(self.book, self.place)
    }

    // Its tune.
    #[tactic(auto, unfolding(crate::specs::Entries::entry_tune))]
    pub fn tune(&self) -> Tune
        ensures { result ≡ entry_tune self.now.book.now self.now.place }
    {
        let fields = self.fields();
        Tune {
            number: u32::from(fields.number),
            cards: u32::from(fields.cards),
        }
    }

    // Where its body begins, counted from the file's start.
    pub fn offset(&self) -> u32
        ensures { result ≡ offset self.now.book.now self.now.place }
    {
        self.fields().offset
    }

    // Its body, as a part of the book.
    pub fn body(&self) -> Body<'a>
        ensures { result.bytes.now ≡ part_of self.now.book.now self.now.place }
    {
        let fields = self.fields();
        let start = fields.offset as usize;
        let end = start + 12 * usize::from(fields.cards);
        Body {
            bytes: &self.book[start..end],
        }
    }
}

// The tune at a place of the contents. As Open; then 8 if the contents has no such place.
#[tactic(auto, using(refusal::specs::Replies::reply_value, refusal::specs::Replies::reply_refused), unfolding(refusal::specs::Replies::reply_with, crate::specs::Entries::tune_at, crate::specs::Entries::place_refusal))]
pub fn tune_at(book: &[u8], place: u32) -> Result<Tune, Refusal>
    ensures { tune_reply result ≡ tune_at book.now place }
{
    let count = open(book)?;
    if count <= place {
        return Err(Refusal::NoSuchTune);
    }
    let entry = Entry {
        book,
        place: place as usize,
    };
    Ok(entry.tune())
}
