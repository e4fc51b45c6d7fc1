// The ceilings of a row whose names stand, by the rows above it: their sizes stand in the table, the left, right, empty and element
// nodes of P line j, its tags, in byte j of an area.
#![tactic(auto)]

ghost use Rattle.std.specs.Prelude.{◌≡◌, ◌<◌, get_or};
ghost use Rattle.calculus.specs.Refusals.{type_line, pattern_line};
ghost use Rattle.format.specs.Code.{kind_view};
ghost use Rattle.read_ceilings.specs.Reckoned.{TypeReckoned, PatternReckoned, TagsReckoned, CeilingsTold, SizeTold, TagsKept};

use area_cells::{item_at, narrow_byte, put_byte, wide_byte};
use codes::{ELEMENT, EMPTY, LEFT, LIST, PAIR, PRODUCT, RIGHT, SIZE, SUM};
use format::{Kind, Row};
use limits::{MAX_CLAUSES, MAX_ISOS, MAX_LETS, MAX_NODES, MAX_PATTERNS, MAX_TAGS, MAX_TYPES};
use read_seen::Seen;
use table_trees::{cell, pattern_cell};

// The nodes of a T line that stands next, over the lines that it names.
fn type_nodes(t: &[u16], kind: usize, a: usize, b: usize) -> usize
    ensures { TypeReckoned t.now kind a b result }
{
    match kind {
        SUM | PRODUCT => 1 + cell(t, a, SIZE) + cell(t, b, SIZE),
        LIST => 1 + cell(t, a, SIZE),
        _ => 1,
    }
}

// The nodes of a P line that stands next.
fn pattern_nodes(t: &[u16], base: usize, kind: usize, a: usize, b: usize) -> usize
    ensures { PatternReckoned t.now base kind a b result }
{
    match kind {
        LEFT | RIGHT => 1 + pattern_cell(t, base, a, SIZE),
        PAIR | ELEMENT => 1 + pattern_cell(t, base, a, SIZE) + pattern_cell(t, base, b, SIZE),
        _ => 1,
    }
}

// The tags of P line j.
fn tags_of(g: &[u8], j: usize) -> usize
    ensures { (result ≡ get_or g.now j 0) × (result < 256) }
{
    wide_byte(item_at(g, j, 0))
}

// The tags of a P line that stands next.
fn next_tags(g: &[u8], kind: usize, a: usize, b: usize) -> usize
    ensures { TagsReckoned g.now kind a b result }
{
    match kind {
        LEFT | RIGHT => 1 + tags_of(g, a),
        PAIR => tags_of(g, a) + tags_of(g, b),
        EMPTY => 1,
        ELEMENT => 1 + tags_of(g, a) + tags_of(g, b),
        _ => 0,
    }
}

// A T line whose names stand: how many there are, and its nodes.
fn type_within(c: Seen, t: &[u16], g: &[u8], r: Row) -> bool
    ensures { CeilingsTold type_line t.now g.now c r result }
{
    c.types < MAX_TYPES && type_nodes(t, r.x, r.y, r.z) <= MAX_NODES
}

// A P line whose names stand: how many there are, its nodes, its tags.
fn pattern_within(c: Seen, t: &[u16], g: &[u8], r: Row) -> bool
    ensures { CeilingsTold pattern_line t.now g.now c r result }
{
    c.patterns < MAX_PATTERNS
        && pattern_nodes(t, c.types, r.x, r.y, r.z) <= MAX_NODES
        && next_tags(g, r.x, r.y, r.z) <= MAX_TAGS
}

// Whether a row whose names stand keeps the ceilings.
pub fn within_ceilings(c: Seen, t: &[u16], g: &[u8], r: Row) -> bool
    ensures { CeilingsTold (kind_view r.kind) t.now g.now c r result }
{
    let k = r.kind;
    match k {
        Kind::Type => type_within(c, t, g, r),
        Kind::Pattern => pattern_within(c, t, g, r),
        Kind::Iso => c.isos < MAX_ISOS,
        Kind::Clause => c.clauses < MAX_CLAUSES,
        Kind::Let => c.lets < MAX_LETS,
    }
}

// The size of a row whose names stand: the nodes of a T or P line, 0 for another letter.
pub fn row_size(c: Seen, t: &[u16], r: Row) -> usize
    ensures { SizeTold (kind_view r.kind) t.now c r result }
{
    let k = r.kind;
    match k {
        Kind::Type => type_nodes(t, r.x, r.y, r.z),
        Kind::Pattern => pattern_nodes(t, c.types, r.x, r.y, r.z),
        Kind::Iso | Kind::Clause | Kind::Let => 0,
    }
}

// Keeps the tags of a row that passed, where it is a P line.
pub fn keep_tags(c: Seen, g: &mut [u8], r: Row)
    ensures { TagsKept (kind_view r.kind) g.old g.new c r }
{
    if let Kind::Pattern = r.kind {
        let n = next_tags(g, r.x, r.y, r.z);
        put_byte(g, c.patterns, narrow_byte(n));
    }
}
