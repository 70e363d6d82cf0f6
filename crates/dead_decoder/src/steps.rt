// The steps that forget dead lines, on the six coefficients of a card's spectrum, and the way back.
ghost use Rattle.std.specs.Prelude.{◌≡◌, ◌≢◌, ◌*◌, ◌/◌, ◌%◌, ◌≤◌, length, MatchOption};
ghost use Rattle.algebra.specs.Field.{minus, times, cube, risen};
ghost use Rattle.algebra.specs.Lists.{table};
ghost use Rattle.rank.specs.Definitions.{at};
ghost use Rattle.dead_lines.specs.Steps.{raised, multiplier, line_step, back, line_stepped, unstepped, Upto};
ghost use Rattle.dead_lines.specs.Multipliers.{steps, six_steps, six_backs};
ghost use Rattle.dead_decoder.specs.Lines.{step_of, multipliers};

use crate::card::DeadCard;
use crate::masks::Mask;
use codec::Dimension;

// The multipliers of the steps of a mask's highest line, after the steps of its other lines.
static ROW_MULTIPLIERS: [u16; 64] = [
    0, 1, 9, 166, 81, 664, 133, 440, 103, 484, 415, 357, 189, 170, 256, 466, 31, 124, 421, 453,
    513, 70, 164, 643, 624, 217, 272, 480, 569, 124, 121, 596, 279, 587, 170, 438, 321, 517, 407,
    438, 236, 675, 491, 588, 421, 113, 113, 170, 566, 649, 209, 2, 320, 449, 114, 109, 89, 317,
    552, 328, 26, 394, 157, 8,
];

static COLUMN_MULTIPLIERS: [u16; 64] = [
    0, 103, 649, 21, 190, 325, 191, 634, 663, 118, 106, 693, 125, 65, 666, 417, 523, 232, 406, 96,
    366, 83, 100, 612, 59, 335, 82, 46, 232, 540, 420, 232, 8, 157, 394, 26, 328, 552, 317, 89,
    109, 114, 449, 320, 2, 209, 649, 566, 170, 113, 113, 421, 588, 491, 675, 236, 438, 407, 517,
    321, 438, 170, 587, 279,
];

#[derive(Clone, Copy)]
pub enum Line {
    Row,
    Column,
}

// A cube by its exponent, as 1 times it: that takes less time than by digits.
pub(crate) fn cubed(v: u16) -> u16
    ensures { result ≡ cube v }
{
    field::cube_product(1, v)
}

// a, a^3, .. a^243.
pub(crate) fn conjugates(a: u16) -> [u16; 6]
    ensures { result ≡ table 6 (λ i. risen i a) }
{
    let a1 = cubed(a);
    let a2 = cubed(a1);
    let a3 = cubed(a2);
    let a4 = cubed(a3);
    let a5 = cubed(a4);
    [a, a1, a2, a3, a4, a5]
}

impl Line {
    // The multiplier of the step of a mask's highest line.
    fn multiplier(self, mask: Mask) -> u16
        ensures { result ≡ at (multipliers self) mask.bits }
    {
        match self {
            Line::Row => ROW_MULTIPLIERS[mask.bits as usize],
            Line::Column => COLUMN_MULTIPLIERS[mask.bits as usize],
        }
    }

    // The same of the step for the line whose bit is worth `low`, if it is dead.
    fn dead_multiplier(self, mask: Mask, low: u32) -> Option<u16>
        requires { (1 ≤ low) × (low ≤ 32) }
        ensures { MatchOption result (mask.bits / low % 2 ≡ 0) (λ a. (mask.bits / low % 2 ≢ 0) × (a ≡ at (multipliers self) (mask.bits % (2 * low)))) }
    {
        if mask.bits / low % 2 == 0 {
            return None;
        }
        let lines = Mask {
            bits: mask.bits % (2 * low),
        };
        Some(self.multiplier(lines))
    }

    // What a step makes of the coefficient before.
    fn raised(self, v: u16) -> u16
        ensures { result ≡ raised (step_of self 0) v }
    {
        match self {
            Line::Row => cubed(v),
            Line::Column => v,
        }
    }

    // What a step multiplies the coefficients by.
    fn factors(self, a: u16) -> [u16; 6]
        ensures { result ≡ table 6 (multiplier (step_of self a)) }
    {
        match self {
            Line::Row => [a; 6],
            Line::Column => conjugates(a),
        }
    }

    // A coefficient after a step: y, with x before it.
    fn entry(self, x: u16, factor: u16, y: u16) -> u16
        ensures { result ≡ minus (raised (step_of self 0) x) (times factor y) }
    {
        field::difference(self.raised(x), field::product(factor, y))
    }

    fn step(self, a: u16, h: [u16; 6]) -> [u16; 6]
        ensures { result ≡ table 6 (line_step (step_of self a) (at h)) }
    {
        let m = self.factors(a);
        [
            self.entry(h[5], m[0], h[0]),
            self.entry(h[0], m[1], h[1]),
            self.entry(h[1], m[2], h[2]),
            self.entry(h[2], m[3], h[3]),
            self.entry(h[3], m[4], h[4]),
            self.entry(h[4], m[5], h[5]),
        ]
    }

    // The steps for the dead lines of a mask, the lowest first. A line's bit is worth `low`.
    fn steps(self, mask: Mask, h: [u16; 6]) -> [u16; 6]
        ensures { result ≡ table 6 (six_steps (step_of self) (multipliers self) mask.bits (at h)) }
    {
        let mut g = h;
        for low in [1, 2, 4, 8, 16, 32] {
            let Some(a) = self.dead_multiplier(mask, low) else {
                continue;
            };
            let stepped = self.step(a, g);
            g = stepped;
        }
        g
    }

    // The coefficients before a step, up to number k.
    fn back(self, k: Dimension, a: u16, f: [u16; 6]) -> [u16; 6]
        ensures { (length result ≡ 6) × Upto k.value (at result) (back (step_of self a) (at f)) }
    {
        let m = self.factors(a);
        let mut r = [0u16; 6];
        let mut x = 0;
        for i in 0..=k.value {
            let y = field::quotient(field::difference(x, f[i]), m[i]);
            r[i] = y;
            x = self.raised(y);
        }
        r
    }

    // The way back for the dead lines of a mask, the highest first. One function for both ways would take the order and the step, and its
    // contract would be neither's.
    fn backs(self, k: Dimension, mask: Mask, f: [u16; 6]) -> [u16; 6]
        ensures { Upto k.value (at result) (six_backs (step_of self) (multipliers self) mask.bits (at f)) }
    {
        let mut g = f;
        for low in [32, 16, 8, 4, 2, 1] {
            let Some(a) = self.dead_multiplier(mask, low) else {
                continue;
            };
            let before = self.back(k, a, g);
            g = before;
        }
        g
    }
}

impl DeadCard {
    // The coefficients of a spectrum, all steps made.
    pub(crate) fn steps(self, h: [u16; 6]) -> [u16; 6]
        ensures { result ≡ table 6 (line_stepped (steps self.rows.bits self.columns.bits) (at h)) }
    {
        let g = Line::Row.steps(self.rows, h);
        Line::Column.steps(self.columns, g)
    }

    // The coefficients before all steps, up to number k.
    pub(crate) fn back(self, k: Dimension, f: [u16; 6]) -> [u16; 6]
        ensures { Upto k.value (at result) (unstepped (steps self.rows.bits self.columns.bits) (at f)) }
    {
        let g = Line::Column.backs(k, self.columns, f);
        Line::Row.backs(k, self.rows, g)
    }
}
