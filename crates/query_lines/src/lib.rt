// The desk program's lines: a query's fields, and the lines that answer a file and a query.
#![tactic(auto)]

ghost use Rattle.std.specs.Prelude.{◌≡◌, ◌<◌, drop};
ghost use Rattle.std.proofs.Math.Option.{none};
ghost use Rattle.limits.specs.Limits.{budget_bound, numeral_bound};
ghost use Rattle.model.specs.Desk.{query_in, query_of, query_line, file_line};
ghost use Rattle.area_cells.specs.Areas.{Prints};
ghost use Rattle.query_lines.specs.Views.{as_query, Within, with_letters, behind_letter};

use area_cells::{narrow_number, put_byte, wide_byte, wide_number};
use area_parts::front;
use codes::{COMMA, LETTER_Q, LINE_FEED};
use limits::{MAX_BUDGET, MAX_FIELD, QUERY_LENGTH};
use print_text::{put_field, put_number};
use read_fields::Cursor;

// A query; its letters stand in its line from place `from` up to place `to`.
#[derive(Clone, Copy)]
pub struct Query {
    pub iso: usize,
    pub back: bool,
    pub budget: u32,
    pub from: usize,
    pub to: usize,
}

// The query of these numbers in a text, where its letters begin at a cursor.
fn with_letters(iso: usize, direction: usize, budget: usize, c: Cursor, s: &[u8]) -> Option<Query>
    ensures { (budget < budget_bound
        → as_query s.now result ≡ with_letters iso direction budget (drop c.at s.now))
        × Within s.now result }
{
    Some(Query {
        iso,
        back: direction == 1,
        budget: narrow_number(budget),
        from: c.at,
        to: s.len(),
    })
}

// The three numbers of a query, from behind its letter on, and the comma behind them.
fn after_letter(c: Cursor, s: &[u8]) -> Option<Query>
    ensures { (as_query s.now result ≡ behind_letter (drop c.at s.now)) × Within s.now result }
{
    let (iso, d) = c.field(s, MAX_FIELD)?;
    let (direction, e) = d.field(s, 1)?;
    let (budget, f) = e.field(s, MAX_BUDGET)?;
    let g = f.skip(s, COMMA)?;
    with_letters(iso, direction, budget, g, s)
}

// The query in a text.
fn query_in(s: &[u8]) -> Option<Query>
    ensures { (as_query s.now result ≡ query_in s.now) × Within s.now result }
{
    let start = Cursor { at: 0 };
    after_letter(start.skip(s, LETTER_Q)?, s)
}

// The query in a line.
pub fn query_of(s: &[u8]) -> Option<Query>
    ensures { as_query s.now result ≡ query_of s.now }
{
    if QUERY_LENGTH < s.len() {
        return None;
    }
    let c = Cursor::before_ending(s)?;
    query_in(front(s, c.at))
}

// Appends bytes to an output area.
fn put_bytes(out: &mut [u8], at: usize, s: &[u8]) -> usize
    ensures { Prints out.old out.new at result s.now }
{
    let mut end = at;
    for b in s {
        end = put_byte(out, end, *b);
    }
    end
}

// The line that answers a file: its number and line.
pub fn put_verdict(out: &mut [u8], at: usize, number: u8, line: usize) -> usize
    ensures { line < numeral_bound → Prints out.old out.new at result
        (file_line (record { number = number; line = line })) }
{
    let n = wide_byte(number);
    let a = put_number(out, at, n);
    let b = put_field(out, a, line);
    put_byte(out, b, LINE_FEED)
}

// The line that answers a query: its number, count and letters.
pub fn put_answer(out: &mut [u8], at: usize, number: u8, count: u32, letters: &[u8]) -> usize
    ensures { Prints out.old out.new at result
        (query_line (record { refusal = none; number = number; count = count; letters = letters.now })) }
{
    let n = wide_byte(number);
    let k = wide_number(count);
    let a = put_number(out, at, n);
    let b = put_field(out, a, k);
    let c = put_byte(out, b, COMMA);
    let d = put_bytes(out, c, letters);
    put_byte(out, d, LINE_FEED)
}
