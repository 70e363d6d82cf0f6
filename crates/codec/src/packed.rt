// Linear functions by packed digits: a u64 holds nine counts, in base 128, so that one product and one sum serve nine digits of a value. The
// remainders of the counts by 3 are taken once, at the end.
ghost use Rattle.std.specs.Prelude.{◌≡◌, true, ◌+◌, ◌*◌, ◌%◌, ◌≤◌, ◌<◌};
ghost use Rattle.algebra.specs.Field.{digits};
ghost use Rattle.transform.specs.Packed.{no_counts, IsRow, AreRows, AreTables, OfRows, add_row, add_rows, small_digits, add_small_rows, symbols_of};
ghost use Rattle.transform.specs.Remainders.{remainders, halves};
ghost use Rattle.transform.specs.Counts.{added};

// The six digits of a number.
#[tactic(auto, using(transform::specs::Packed::digits_are))]
fn digits(x: u16) -> [u64; 6]
    ensures { result ≡ digits x }
{
    let a = x as u64;
    let b = a / 3;
    let c = b / 3;
    let d = c / 3;
    let e = d / 3;
    let f = e / 3;
    [a - 3 * b, b - 3 * c, c - 3 * d, d - 3 * e, e - 3 * f, f % 3]
}

// The three digits of a small number. Not by `digits`: the last is the quotient itself, with no remainder taken.
#[tactic(auto, using(transform::specs::Packed::small_digits_are))]
fn small_digits(x: u16) -> [u64; 3]
    requires { x < 27 }
    ensures { result ≡ small_digits x }
{
    let a = x as u64;
    let b = a / 3;
    let c = b / 3;
    [a - 3 * b, b - 3 * c, c]
}

// 3, 7 and 15 at each of nine counts.
const THREES: u64 = 217874930004443523;

const SEVENS: u64 = 508374836677034887;

const FIFTEENS: u64 = 1089374650022217615;

// The remainders by 3 of nine counts, in their places. The digits of a count in base 16 have its remainder, added up, as 16 is 1 more than a
// multiple of 3; then those in base 4. That is at most 7, and 3 z / 8, rounded down, is then z / 3.
fn remainders(v: u64) -> u64
    ensures same { result ≡ remainders v }
    ensures bound { result ≤ 1000000000000000000 }
{
    let y = (v & FIFTEENS) + ((v / 16) & SEVENS);
    let z = (y & THREES) + ((y / 4) & SEVENS);
    z - 3 * ((3 * z / 8) & THREES)
}

// From each place on, the number of the three digits there.
#[tactic(auto, unfolding(transform::specs::Remainders::halves, transform::specs::Remainders::halved))]
fn halves(v: u64) -> u64
    ensures { result ≡ halves v }
{
    let r = remainders(v);
    r + 3 * (r / 128) + 9 * (r / 16384)
}

// The symbol of two halves, the lowest of v and w.
fn symbol(v: u64, w: u64) -> u16
    ensures { result ≡ v % 128 + 27 * (w % 128) }
{
    (v % 128 + 27 * (w % 128)) as u16
}

// What rows add up to, each times a digit: 36 counts, nine to a number. A number of a row is nine digits, so that there is room for 60 rows.
#[derive(Clone, Copy)]
pub(crate) struct Counts {
    pub(crate) numbers: [u64; 4],
    pub(crate) rows: usize,
    ghost room: { rows ≤ 60 },
    ghost of_rows: { OfRows rows numbers },
}

impl Counts {
    pub(crate) fn none() -> Counts
        ensures { (result.numbers ≡ no_counts) × (result.rows ≡ 0) }
    {
        Counts {
            numbers: [0; 4],
            rows: 0,
        }
    }

    // A digit times a row more.
    fn add_row(self, digit: u64, row: [u64; 4]) -> Counts
        requires { (self.rows ≤ 59) × (digit ≤ 2) × IsRow row }
        ensures numbers { result.numbers ≡ add_row self.numbers digit row }
        ensures rows { result.rows ≡ self.rows + 1 }
    {
        Counts {
            numbers: [
                self.numbers[0] + digit * row[0],
                self.numbers[1] + digit * row[1],
                self.numbers[2] + digit * row[2],
                self.numbers[3] + digit * row[3],
            ],
            rows: self.rows + 1,
        }
    }

    // The six digits of a number times their rows more.
    #[tactic(auto, using(transform::specs::Packed::row_bounded, algebra::specs::Digits::digit_below), unfolding(transform::specs::Packed::add_rows, transform::specs::Packed::add_three_rows))]
    pub(crate) fn add_digits(self, x: u16, rows: [[u64; 4]; 6]) -> Counts
        requires { (self.rows ≤ 54) × AreRows rows }
        ensures numbers { result.numbers ≡ add_rows self.numbers (digits x) rows }
        ensures rows { result.rows ≡ self.rows + 6 }
    {
        let d = digits(x);
        self.add_row(d[0], rows[0])
            .add_row(d[1], rows[1])
            .add_row(d[2], rows[2])
            .add_row(d[3], rows[3])
            .add_row(d[4], rows[4])
            .add_row(d[5], rows[5])
    }

    // The three digits of a small number times their rows more.
    #[tactic(auto, using(transform::specs::Packed::row_bounded, transform::specs::Packed::bounded_at, transform::specs::Packed::small_digits_bounded), unfolding(transform::specs::Packed::add_small_rows, transform::specs::Packed::add_three_rows))]
    pub(crate) fn add_small(self, x: u16, rows: [[u64; 4]; 3]) -> Counts
        requires { (self.rows ≤ 57) × (x < 27) × AreRows rows }
        ensures numbers { result.numbers ≡ add_small_rows self.numbers x rows }
        ensures rows { result.rows ≡ self.rows + 3 }
    {
        let d = small_digits(x);
        self.add_row(d[0], rows[0])
            .add_row(d[1], rows[1])
            .add_row(d[2], rows[2])
    }

    // The six symbols that the counts stand for.
    pub(crate) fn symbols(self) -> [u16; 6]
        ensures { result ≡ symbols_of self.numbers }
    {
        let p = halves(self.numbers[0]);
        let q = halves(self.numbers[1]);
        let r = halves(self.numbers[2]);
        let s = halves(self.numbers[3]);
        [
            symbol(p, p / 2097152),
            symbol(p / 4398046511104, q),
            symbol(q / 2097152, q / 4398046511104),
            symbol(r, r / 2097152),
            symbol(r / 4398046511104, s),
            symbol(s / 2097152, s / 4398046511104),
        ]
    }
}

// The six symbols that the digits of a card stand for, each times its row in the table of its symbol. Each call is compiled for its own tables,
// without what is 0 in them.
#[tactic(auto, using(transform::specs::Packed::table_bounded, transform::specs::Counts::added_next), unfolding(transform::specs::Counts::added))]
#[inline(always)]
pub(crate) fn linear(card: [u16; 6], tables: &[[[u64; 4]; 6]; 6]) -> [u16; 6]
    requires { AreTables tables.now }
    ensures { result ≡ symbols_of (added tables.now card 6) }
{
    let mut counts = Counts::none();
    for s in 0..6 {
        // The borrow checker lays no call's result in an array that is written again.
        let next = counts.add_digits(card[s], tables[s]);
        counts = next;
    }
    counts.symbols()
}
