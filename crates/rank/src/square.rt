// The square of digits of a card (SPECIFICATION 3.1), by value: an array of six rows.
ghost use Rattle.std.specs.Prelude.{◌≡◌};
ghost use Rattle.rank.specs.Elimination.{low_digits, other_digits, square};

// The lowest digit of each symbol.
fn low_digits(symbols: [u16; 6]) -> [u16; 6]
    ensures { result ≡ low_digits symbols }
{
    [
        symbols[0] % 3,
        symbols[1] % 3,
        symbols[2] % 3,
        symbols[3] % 3,
        symbols[4] % 3,
        symbols[5] % 3,
    ]
}

// Each symbol without its lowest digit.
fn other_digits(symbols: [u16; 6]) -> [u16; 6]
    ensures { result ≡ other_digits symbols }
{
    [
        symbols[0] / 3,
        symbols[1] / 3,
        symbols[2] / 3,
        symbols[3] / 3,
        symbols[4] / 3,
        symbols[5] / 3,
    ]
}

// Row i, column j is digit i of symbol j.
pub(crate) fn digit_square(symbols: [u16; 6]) -> [[u16; 6]; 6]
    ensures { result ≡ square symbols }
{
    let from1 = other_digits(symbols);
    let from2 = other_digits(from1);
    let from3 = other_digits(from2);
    let from4 = other_digits(from3);
    let from5 = other_digits(from4);
    [
        low_digits(symbols),
        low_digits(from1),
        low_digits(from2),
        low_digits(from3),
        low_digits(from4),
        low_digits(from5),
    ]
}
