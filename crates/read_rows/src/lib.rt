// The row of the line that begins at a place: its letter, its fields and its ending, each byte looked at once.
#![tactic(auto)]

ghost use Rattle.std.specs.Prelude.{◌≡◌, drop};
ghost use Rattle.format.specs.Code.{kind_view};
ghost use Rattle.read_rows.specs.Views.{as_line, closed, behind_letter, row_from};

use format::{Kind, Row};
use limits::MAX_FIELD;
use read_fields::Cursor;
use read_forms::{fields_of, kind_of};

// The row of these fields, and where the next line begins, where the line ends behind them.
fn finished(k: Kind, x: usize, y: usize, z: usize, c: Cursor, s: &[u8]) -> Option<(Row, Cursor)>
    ensures { as_line s.now result ≡ closed (kind_view k) x y z (drop c.at s.now) }
{
    let end = c.ending(s)?;
    Some((Row { kind: k, x, y, z }, end))
}

// The fields of a line whose letter is read, and its ending.
fn after_letter(k: Kind, b: Cursor, s: &[u8]) -> Option<(Row, Cursor)>
    ensures { as_line s.now result ≡ behind_letter (kind_view k) (drop b.at s.now) }
{
    let (x, c) = b.field(s, MAX_FIELD)?;
    let (y, d) = c.field(s, MAX_FIELD)?;
    if fields_of(k) == 2 {
        return finished(k, x, y, 0, d, s);
    }
    let (z, e) = d.field(s, MAX_FIELD)?;
    finished(k, x, y, z, e, s)
}

// The row of the line that begins at a place, and where the next line begins.
pub fn row_at(s: &[u8], at: usize) -> Option<(Row, Cursor)>
    ensures { as_line s.now result ≡ row_from (drop at s.now) }
{
    let k = kind_of(*s.get(at)?)?;
    after_letter(k, Cursor { at: at + 1 }, s)
}
