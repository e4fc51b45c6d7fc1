// Turn: the file's bytes in; the turned file's bytes in the output area, and its length.
#![tactic(auto)]

ghost use Rattle.std.specs.Prelude.{◌≡◌};
ghost use Rattle.format.specs.Unfold.{exchange};
ghost use Rattle.format.specs.Code.{kind_view, row_view};
ghost use Rattle.turner.specs.Written.{RowWritten, LetsWritten, LetsEnd, FileWritten};
ghost use Rattle.turner.specs.TurnSays.{TurnSays};

use area_cells::narrow_byte;
use checker::check_file;
use codes::{FIRST, KIND, LET_LINE, ROW_LETTER, SECOND};
use format::{Answer, Kind, Refusal, Row, is_refused};
use print_text::put_row;
use read_forms::kind_of;
use table_trees::cell;

// The answer of Check, or a short area, and the number of bytes written.
#[derive(Clone, Copy)]
pub struct Turned {
    pub answer: Answer,
    pub length: usize,
}

// A row as the turned file has it.
fn exchanged(k: Kind, x: usize, y: usize, z: usize) -> Row
    ensures { row_view result ≡ exchange (kind_view k) (record { kind = kind_view k; x = x; y = y; z = z }) }
{
    match k {
        Kind::Type | Kind::Pattern => Row { kind: k, x, y, z },
        Kind::Iso | Kind::Clause => Row {
            kind: k,
            x: y,
            y: x,
            z,
        },
        Kind::Let => Row {
            kind: k,
            x: z,
            y,
            z: x,
        },
    }
}

// Writes row n as the turned file has it.
fn put_turned_row(t: &[u16], n: usize, out: &mut [u8], at: usize) -> usize
    ensures { RowWritten t.now out.old out.new n at result }
{
    match kind_of(narrow_byte(cell(t, n, ROW_LETTER))) {
        Some(k) => put_row(
            out,
            at,
            exchanged(k, cell(t, n, KIND), cell(t, n, FIRST), cell(t, n, SECOND)),
        ),
        None => at,
    }
}

// The first row from row n on that is no L row.
fn lets_end(t: &[u16], n: usize, lines: usize) -> usize
    ensures { LetsEnd t.now n lines result }
{
    for m in n..lines {
        if cell(t, m, ROW_LETTER) != LET_LINE {
            return m;
        }
    }
    n.max(lines)
}

// Writes the rows from row `from` up to row `to`, last to first, as the turned file has them.
fn put_lets(t: &[u16], from: usize, to: usize, out: &mut [u8], at: usize) -> usize
    ensures { LetsWritten t.now out.old out.new from to at result }
{
    let mut end = at;
    for n in (from..to).rev() {
        end = put_turned_row(t, n, out, end);
    }
    end
}

// Writes the turned file of a table of `lines` rows: each row that is no L row, and the L rows below
// it last to first.
fn put_turned(t: &[u16], lines: usize, out: &mut [u8]) -> usize
    ensures { FileWritten t.now out.old out.new lines result }
{
    let mut n: usize = 0;
    let mut end: usize = 0;
    while n < lines {
        let next = lets_end(t, n + 1, lines);
        end = put_turned_row(t, n, out, end);
        end = put_lets(t, n + 1, next, out, end);
        n = next;
    }
    end
}

// Turns a file. The output area needs the file's length; a refusal leaves it untouched.
pub fn turn(file: &[u8], table: &mut [u16], work: &mut [u8], output: &mut [u8]) -> Turned
    ensures { TurnSays file.now table.old work.old output.old
        table.new work.new output.new result }
{
    if output.len() < file.len() {
        return Turned {
            answer: Answer {
                place: 0,
                refusal: Some(Refusal::ShortArea),
            },
            length: 0,
        };
    }
    let c = check_file(file, table, work);
    let a = c.answer;
    let f = a.refusal;
    if is_refused(f) {
        return Turned {
            answer: a,
            length: 0,
        };
    }
    let n = put_turned(table, c.lines, output);
    Turned {
        answer: a,
        length: n,
    }
}
