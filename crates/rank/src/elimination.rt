// Row elimination on a square of digits, by value, step by step as specs/Elimination.antt defines it.
ghost use Rattle.std.specs.Prelude.{◌≡◌, ◌<◌, length, MatchOption};
ghost use Rattle.rank.specs.Elimination.{first_nonzero, DigitRows, pivot_log};

use crate::row::{multiple, row_less};

// The first place where a column is not 0.
fn pivot_place(column: [u16; 6]) -> Option<usize>
    ensures { MatchOption result (first_nonzero 0 column ≡ 6) (λ f. (f ≡ first_nonzero 0 column) × (f < 6)) }
{
    for i in 0..6 {
        if column[i] != 0 {
            return Some(i);
        }
    }
    None
}

// How many rows elimination chooses, a column after the other: r rows are chosen before column j. In place: a square
// that a function returned would be copied for each column.
pub(crate) fn pivots(m: [[u16; 6]; 6]) -> u8
    requires { DigitRows m }
    ensures { result ≡ length (pivot_log m) }
{
    let mut n = m;
    let mut r = 0;
    for j in 0..6 {
        let column = [n[0][j], n[1][j], n[2][j], n[3][j], n[4][j], n[5][j]];
        let Some(f) = pivot_place(column) else {
            continue;
        };
        let a = n[f][j];
        let x = n[r];
        let p = n[f];
        n[f] = x;
        n[r] = [0, 0, 0, 0, 0, 0];
        for i in r + 1..6 {
            let y = n[i];
            n[i] = row_less(y, multiple(n[i][j], a), p);
        }
        r += 1;
    }
    r as u8
}
