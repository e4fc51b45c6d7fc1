// The file of an imported list: its rows built in areas of their own, then printed, unless they pass a ceiling.
#![tactic(auto)]

ghost use Rattle.std.specs.Prelude.{◌≤◌, ◌≡◌};
ghost use Rattle.std.proofs.Math.Option.{some};
ghost use Rattle.calculus.specs.Refusals.{pattern_line, ceiling};
ghost use Rattle.limits.specs.Limits.{max_clauses};
ghost use Rattle.format.specs.Lines.{print, print_rows};
ghost use Rattle.format.specs.Code.{kind_view, refusal_view};
ghost use Rattle.area_cells.specs.Areas.{Writes};
ghost use Rattle.table_trees.specs.Unfolding.{type_of};
ghost use Rattle.list_entries.specs.Entries.{entry_at, entries_at};
ghost use Rattle.number_values.specs.Numbers.{Counted};
ghost use Rattle.list_file.specs.Filing.{FilePut, FileMade, RowsMade};

use codes::{FIRST, KIND, SECOND};
use format::{Kind, Refusal, Row};
use limits::{MAX_CLAUSES, MAX_PATTERNS, MAX_TAGS, ROW_WIDTH};
use list_entries::MAX_ENTRIES;
use list_writing::{write_pairs, write_type};
use print_text::put_row;
use table_sizes::type_tags;
use table_trees::cell;

// The words of the T rows, of the P rows and of the C rows.
const ENTRY_WORDS: usize = MAX_ENTRIES * ROW_WIDTH;

const CLAUSE_WORDS: usize = MAX_CLAUSES * ROW_WIDTH;

// A refusal or none, and the number of bytes in the output area.
#[derive(Clone, Copy)]
pub struct Filed {
    pub refusal: Option<Refusal>,
    pub length: usize,
}

// A row of an area as a line of the file.
fn put_entry(s: &[u16], kind: Kind, row: usize, out: &mut [u8], at: usize) -> usize
    ensures { Writes out.old out.new at result (print (entry_at (kind_view kind) s.now row)) }
{
    put_row(
        out,
        at,
        Row {
            kind: kind,
            x: cell(s, row, KIND),
            y: cell(s, row, FIRST),
            z: cell(s, row, SECOND),
        },
    )
}

// The first n rows of an area.
fn put_entries(s: &[u16], kind: Kind, n: usize, out: &mut [u8], at: usize) -> usize
    ensures { Writes out.old out.new at result (print_rows (entries_at (kind_view kind) s.now 0 n)) }
{
    let mut end = at;
    for i in 0..n {
        end = put_entry(s, kind, i, out, end);
    }
    end
}

// How many T, P and C rows there are, and the T rows of the iso's types.
#[derive(Clone, Copy)]
struct Made {
    types: usize,
    patterns: usize,
    clauses: usize,
    from: usize,
    to: usize,
}

// The file of these rows.
fn put_file(ts: &[u16], ps: &[u16], cs: &[u16], m: Made, out: &mut [u8]) -> usize
    ensures { FilePut ts.now ps.now cs.now m out.old out.new result }
{
    let x = put_entries(ts, Kind::Type, m.types, out, 0);
    let y = put_entries(ps, Kind::Pattern, m.patterns, out, x);
    let z = put_row(
        out,
        y,
        Row {
            kind: Kind::Iso,
            x: m.from,
            y: m.to,
            z: 0,
        },
    );
    put_entries(cs, Kind::Clause, m.clauses, out, z)
}

// A file that passes a ceiling of P lines, and no bytes.
fn over() -> Filed
    ensures { (refusal_view result.refusal ≡ some (ceiling pattern_line)) × (result.length ≡ 0) }
{
    Filed {
        refusal: Some(Refusal::Ceiling(Kind::Pattern)),
        length: 0,
    }
}

// Writes the file whose iso sends value k of T line i to value tos[k] of T line j, for n values. The output area needs 65,536 bytes; a
// refusal leaves it untouched.
pub fn write_file(
    t: &[u16],
    counts: &[usize],
    i: usize,
    j: usize,
    tos: &[u16],
    n: usize,
    out: &mut [u8],
) -> Filed
    requires { Counted t.now counts.now × (n ≤ max_clauses) }
    ensures { FileMade (type_of t.now i) (type_of t.now j) tos.now n
        out.old out.new result }
{
    if MAX_TAGS < type_tags(t, i) {
        return over();
    }
    if MAX_TAGS < type_tags(t, j) {
        return over();
    }
    write_rows(t, counts, i, j, tos, n, out)
}

// The same, where no value of the two types has over 40 left and right nodes.
fn write_rows(
    t: &[u16],
    counts: &[usize],
    i: usize,
    j: usize,
    tos: &[u16],
    n: usize,
    out: &mut [u8],
) -> Filed
    requires { Counted t.now counts.now × (n ≤ max_clauses) }
    ensures { RowsMade (type_of t.now i) (type_of t.now j) tos.now n
        out.old out.new result }
{
    let mut ts = [0u16; ENTRY_WORDS];
    let mut ps = [0u16; ENTRY_WORDS];
    let mut cs = [0u16; CLAUSE_WORDS];
    let a = write_type(t, i, &mut ts, 0);
    let b = write_type(t, j, &mut ts, a.end);
    let end = write_pairs(t, counts, i, j, tos, n, &mut ps, &mut cs);
    if MAX_PATTERNS < end {
        return Filed {
            refusal: Some(Refusal::Ceiling(Kind::Pattern)),
            length: 0,
        };
    }
    let m = Made {
        types: b.end,
        patterns: end,
        clauses: n,
        from: a.number,
        to: b.number,
    };
    let length = put_file(&ts, &ps, &cs, m, out);
    Filed {
        refusal: None,
        length: length,
    }
}
