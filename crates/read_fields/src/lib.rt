// The text of a line, and where lines end: a cursor whose methods take a field or an end and hand the cursor back.
#![tactic(auto)]

ghost use Rattle.std.specs.Prelude.{◌≡◌, ◌+◌, ◌<◌, get_or, drop, MatchOption};
ghost use Rattle.format.specs.Lines.{text, skip, digits, numeral};
ghost use Rattle.read_fields.specs.Views.{as_text, as_skipped, as_number, digit_of, as_field, as_end, past_ending, LineEnd};

use area_cells::item_at;
use codes::{CARRIAGE_RETURN, COMMA, DIGIT_NINE, DIGIT_ZERO, LINE_FEED};

#[derive(Clone, Copy)]
pub struct Cursor {
    pub at: usize,
}

// The digit at a place.
fn digit_at(s: &[u8], at: usize) -> Option<usize>
    ensures { MatchOption result (digit_of (get_or s.now at 0) ≡ 10)
        (λ d. (d ≡ digit_of (get_or s.now at 0)) × (d < 10)) }
{
    let b = item_at(s, at, 0);
    match b {
        DIGIT_ZERO..=DIGIT_NINE => Some((b - DIGIT_ZERO) as usize),
        _ => None,
    }
}

// The number that the digits from a place on make, at most `most`; `first` is the digit there.
fn digits_at(s: &[u8], from: usize, first: usize, most: u32) -> Option<(usize, Cursor)>
    requires { (first ≡ digit_of (get_or s.now from 0)) × (first < 10) }
    ensures { as_number s.now result ≡ digits (most + 1) 0 (drop from s.now) }
{
    let limit = most as usize;
    if limit < first {
        return None;
    }
    let mut at = from + 1;
    let mut n = first;
    while let Some(d) = digit_at(s, at) {
        n = n * 10 + d;
        if limit < n {
            return None;
        }
        at += 1;
    }
    Some((n, Cursor { at }))
}

impl Cursor {
    // One given byte.
    pub fn skip(self, s: &[u8], b: u8) -> Option<Cursor>
        ensures { as_skipped s.now result ≡ skip b (drop self.at s.now) }
    {
        let at = self.at;
        if at < s.len() && s[at] == b {
            return Some(Cursor { at: at + 1 });
        }
        None
    }

    // A decimal number of at most `most`, without leading zeros.
    pub fn number(self, s: &[u8], most: u32) -> Option<(usize, Cursor)>
        ensures { as_number s.now result ≡ numeral (most + 1) (drop self.at s.now) }
    {
        let at = self.at;
        match digit_at(s, at)? {
            0 => Some((0, Cursor { at: at + 1 })),
            d => digits_at(s, at, d, most),
        }
    }

    // A comma and a number.
    pub fn field(self, s: &[u8], most: u32) -> Option<(usize, Cursor)>
        ensures { as_number s.now result ≡ as_field (most + 1) (drop self.at s.now) }
    {
        self.skip(s, COMMA)?.number(s, most)
    }

    // The end of the bytes: the cursor stays there, and nothing is left.
    pub fn end(self, s: &[u8]) -> Option<Cursor>
        ensures { as_skipped s.now result ≡ as_end (drop self.at s.now) }
    {
        (s.len() <= self.at).then_some(self)
    }

    // A line's ending, a line feed or a carriage return and a line feed, that stands here.
    pub fn ending(self, s: &[u8]) -> Option<Cursor>
        ensures { as_skipped s.now result ≡ past_ending (drop self.at s.now) }
    {
        let b = *s.get(self.at)?;
        let next = Cursor { at: self.at + 1 };
        match b {
            LINE_FEED => Some(next),
            CARRIAGE_RETURN => next.skip(s, LINE_FEED),
            _ => None,
        }
    }

    // The end of the line that begins here: behind its line feed, or where the bytes end.
    pub fn line_end(self, s: &[u8]) -> Cursor
        ensures { LineEnd s.now self.at result.at }
    {
        for at in self.at..s.len() {
            if s[at] == LINE_FEED {
                return Cursor { at: at + 1 };
            }
        }
        Cursor {
            at: self.at.max(s.len()),
        }
    }

    // A line's ending, a line feed or a carriage return and a line feed: the cursor stands before it, where the text ends.
    pub fn before_ending(s: &[u8]) -> Option<Cursor>
        ensures { as_text s.now result ≡ text s.now }
    {
        let [line @ .., LINE_FEED] = s else {
            return None;
        };
        match line {
            [text @ .., CARRIAGE_RETURN] => Some(Cursor { at: text.len() }),
            _ => Some(Cursor { at: line.len() }),
        }
    }
}
