// The words of a line, and numbers.
ghost use Rattle.std.specs.Prelude.{◌≡◌, Some, None, if◌then◌else◌};
ghost use Rattle.std.specs.Iterator.{YieldsFirstRef, item_count};
ghost use Rattle.tune_text.specs.Words.{blank, words, is_number, value};
ghost use Rattle.tune_text.specs.Pieces.{ends_at, trimmed};

// A line whose words are taken one by one: what is between blanks.
#[derive(Clone, Copy)]
pub(crate) struct Words<'a> {
    pub line: &'a [u8],
}

impl<'a> Iterator for Words<'a> {
    type Item = &'a [u8];

    ghost next_gives = { YieldsFirstRef (λ s. words s.line.now) };

    ghost remaining = { item_count (λ s. words s.line.now) };

    fn next(&mut self) -> Option<&'a [u8]> {
        let from = trimmed(self.line);
        let (word, rest) = from.split_at(word_end(from));
        self.line = rest;
        if word.is_empty() { None } else { Some(word) }
    }
}

// The line without the blanks at its beginning.
fn trimmed(line: &[u8]) -> &[u8]
    ensures { result.now ≡ trimmed line.now }
{
    let start = line
        .iter()
        .position(|byte| !is_blank(*byte))
        .unwrap_or(line.len());
    &line[start..]
}

// Where the first blank is, or the end.
fn word_end(line: &[u8]) -> usize
    ensures { result ≡ ends_at blank line.now }
{
    line.iter()
        .position(|byte| is_blank(*byte))
        .unwrap_or(line.len())
}

// Whether a byte is a space, a tab or a carriage return.
#[tactic(auto, unfolding(crate::specs::Words::blank))]
fn is_blank(byte: u8) -> bool
    ensures { result ≡ blank byte }
{
    matches!(byte, b' ' | b'\t' | b'\r')
}

// The value of a word of digits. One that does not fit is the most that does.
fn value(digits: &[u8]) -> u16
    ensures { result ≡ value digits.now }
{
    digits.iter().fold(0, |value: u16, digit| {
        value
            .saturating_mul(10)
            .saturating_add(u16::from(digit.saturating_sub(b'0')))
    })
}

// Whether a word has digits only, and at least one.
fn is_number(word: &[u8]) -> bool
    ensures { result ≡ is_number word.now }
{
    !word.is_empty() && word.iter().all(|byte| byte.is_ascii_digit())
}

// The number that a word is, if it is one.
pub(crate) fn number(word: &[u8]) -> Option<u16>
    ensures { result ≡ (if is_number word.now then Some (value word.now) else None) }
{
    is_number(word).then(|| value(word))
}
