// The numbers of a book where they lie, and the entries of the contents.
ghost use Rattle.std.specs.Prelude.{◌≡◌, ◌+◌, ◌≤◌, length};
ghost use Rattle.book.specs.Layout.{big, big_four, contents_end};
ghost use Rattle.book.specs.Entries.{entry_fields};

// Two bytes as a number, the high byte first.
#[tactic(auto, unfolding(crate::specs::Layout::big))]
pub(crate) fn two_bytes(bytes: &[u8], at: usize) -> u16
    requires { at + 2 ≤ length bytes.now }
    ensures { result ≡ big bytes.now at }
{
    u16::from_be_bytes([bytes[at], bytes[at + 1]])
}

// Four bytes as a number, the high byte first.
#[tactic(auto, unfolding(crate::specs::Layout::big, crate::specs::Layout::big_four))]
fn four_bytes(bytes: &[u8], at: usize) -> u32
    requires { at + 4 ≤ length bytes.now }
    ensures { result ≡ big_four bytes.now at }
{
    u32::from_be_bytes([bytes[at], bytes[at + 1], bytes[at + 2], bytes[at + 3]])
}

// What an entry of the contents says of its tune: the tune number, where the body begins, counted from the file's start, and how many cards
// it has.
#[derive(Clone, Copy)]
pub(crate) struct Fields {
    pub number: u16,
    pub offset: u32,
    pub cards: u16,
}

impl Fields {
    // Of entry `e`, counted from 0.
    pub(crate) fn of_entry(book: &[u8], e: usize) -> Fields
        requires { contents_end (e + 1) ≤ length book.now }
        ensures { result ≡ entry_fields book.now e }
    {
        let at = 2 + 8 * e;
        Fields {
            number: two_bytes(book, at),
            offset: four_bytes(book, at + 2),
            cards: two_bytes(book, at + 6),
        }
    }
}
