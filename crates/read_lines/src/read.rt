// A whole file into the table: refusals 3 to 7.

ghost use Rattle.std.specs.Prelude.{◌≡◌, ◌*◌, ◌≤◌, ◌<◌, length};
ghost use Rattle.std.proofs.lemmas.List.Edits.{sets};
ghost use Rattle.limits.specs.Limits.{table_length, max_lines, max_patterns, field_bound, row_width};
ghost use Rattle.format.specs.Lines.{lines};
ghost use Rattle.format.specs.Table.{numbers};
ghost use Rattle.format.specs.Code.{row_view};
ghost use Rattle.read_lines.specs.Reads.{LineSays, ReadSays};

use area_words::{narrow, word_of};
use codes::SIZE;
use format::{Refusal, Row};
use limits::{MAX_PATTERNS, ROW_WIDTH};
use read_ceilings::{keep_tags, row_size};
use read_fields::Cursor;
use read_forms::letter_of;
use read_judge::judge;
use read_rows::row_at;
use read_seen::{Seen, nothing_seen, seen_after};

// The file's rows are in the table, or its first refusal and the line; what the rows tell, and how many
// there are.
#[derive(Clone, Copy)]
pub struct Read {
    pub refusal: Option<Refusal>,
    pub place: usize,
    pub seen: Seen,
    pub lines: usize,
}

// The row of the line that begins at a place, below the rows that `c` tells of, and where the next line begins; or the
// lowest of 3 to 7 of the line.
fn judge_line(s: &[u8], at: usize, c: Seen, t: &[u16], g: &[u8]) -> Result<(Row, Cursor), Refusal>
    ensures { LineSays t.now g.now c s.now at result }
{
    let Some((r, next)) = row_at(s, at) else {
        return Err(Refusal::BadLine);
    };
    match judge(c, t, g, r) {
        Some(f) => Err(f),
        None => Ok((r, next)),
    }
}

// Row n of the table becomes r, with its size.
fn put_row(t: &mut [u16], n: usize, r: Row, size: usize)
    requires { (table_length ≤ length t.old) × (n < max_lines) × (r.x < field_bound) × (r.y < field_bound) × (r.z < field_bound) × (size < field_bound) }
    ensures { t.new ≡ sets t.old (n * row_width) (numbers (row_view r) size) }
{
    let b = n * ROW_WIDTH;
    let k = r.kind;
    t[b] = word_of(letter_of(k));
    t[b + 1] = narrow(r.x);
    t[b + 2] = narrow(r.y);
    t[b + 3] = narrow(r.z);
    t[b + SIZE] = narrow(size);
}

// Reads a file of at most 4,096 lines into a table of at least 20,480 numbers. The rows of the lines before the
// first that is refused are then in the table. Byte j of `g` keeps the tags of P line j.
fn read_rows(s: &[u8], t: &mut [u16], g: &mut [u8]) -> Read
    requires { (table_length ≤ length t.old) × (length (lines s.now) ≤ max_lines) × (max_patterns ≤ length g.old) }
    ensures { ReadSays s.now t.old t.new result }
{
    let mut at: usize = 0;
    let mut n: usize = 0;
    let mut seen = nothing_seen();
    while at < s.len() {
        match judge_line(s, at, seen, t, g) {
            Ok((r, next)) => {
                let k = r.kind;
                let size = row_size(seen, t, r);
                put_row(t, n, r, size);
                keep_tags(seen, g, r);
                seen = seen_after(seen, k);
                n += 1;
                at = next.at;
            }
            Err(f) => {
                return Read {
                    refusal: Some(f),
                    place: n + 1,
                    seen: seen,
                    lines: n,
                };
            }
        }
    }
    Read {
        refusal: None,
        place: 0,
        seen: seen,
        lines: n,
    }
}

// The same, with room of its own for what it keeps.
pub fn read_file(s: &[u8], t: &mut [u16]) -> Read
    requires { (table_length ≤ length t.old) × (length (lines s.now) ≤ max_lines) }
    ensures { ReadSays s.now t.old t.new result }
{
    let mut g = [0u8; MAX_PATTERNS];
    read_rows(s, t, &mut g)
}
