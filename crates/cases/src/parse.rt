// Decimal numbers and lists of them, read from a line one after the other. Whatever is no digit separates numbers; a number that is missing
// is 0.

// A number as it is written: its digits, by their remainder by 2^32, and whether a minus sign stands directly before them.
#[derive(Clone, Copy)]
pub struct Written {
    digits: u32,
    minus: bool,
}

// Where a sign means nothing a number counts by its remainder.
impl From<Written> for u32 {
    fn from(number: Written) -> u32 {
        number.digits
    }
}

impl From<Written> for u16 {
    fn from(number: Written) -> u16 {
        (number.digits % 65536) as u16
    }
}

impl From<Written> for u8 {
    fn from(number: Written) -> u8 {
        (number.digits % 256) as u8
    }
}

// A signed number that does not fit is 0.
impl From<Written> for i16 {
    fn from(number: Written) -> i16 {
        let size = i64::from(number.digits);
        i16::try_from(if number.minus { -size } else { size }).unwrap_or(0)
    }
}

// What is left of a line.
#[derive(Drop)]
pub struct Words<'a> {
    left: &'a [u8],
}

impl<'a> Words<'a> {
    pub(crate) fn new(line: &'a [u8]) -> Words<'a> {
        Words { left: line }
    }

    // Takes what stands before the first byte that is a digit, or before the first that is none.
    fn take_until(&mut self, digit: bool) -> &'a [u8] {
        let end = self
            .left
            .iter()
            .position(|byte| byte.is_ascii_digit() == digit)
            .unwrap_or(self.left.len());
        let (taken, left) = self.left.split_at(end);
        self.left = left;
        taken
    }

    fn next(&mut self) -> Written {
        let before = self.take_until(true);
        let digits = self.take_until(false);
        Written {
            digits: digits.iter().fold(0u32, |value, digit| {
                value
                    .wrapping_mul(10)
                    .wrapping_add(u32::from(digit.wrapping_sub(b'0')))
            }),
            minus: before.last() == Some(&b'-'),
        }
    }

    pub(crate) fn number<T: From<Written>>(&mut self) -> T {
        T::from(self.next())
    }

    // Puts the next list into one that is lent, and gives the part of that which it fills. What does not fit is left out.
    pub(crate) fn list<'b, T: From<Written> + Copy>(&mut self, list: &'b mut [T]) -> &'b mut [T] {
        let count = list.len().min(self.number::<u32>() as usize);
        let filled = &mut list[..count];
        for value in filled.iter_mut() {
            *value = self.number();
        }
        filled
    }
}
