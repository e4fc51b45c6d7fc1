// What is still to come of a value after some letters, as lines in an array of 128, and the counts of it.
#![tactic(auto)]

ghost use Rattle.std.specs.Prelude.{◌≡◌, ◌+◌, ◌≤◌, ◌<◌, length};
ghost use Rattle.limits.specs.Limits.{max_nodes, lengths};
ghost use Rattle.limits.specs.Fields.{kind_field};
ghost use Rattle.table_trees.specs.Unfolding.{cell_of};
ghost use Rattle.fault_stacks.specs.Stacks.{NothingHeld, kind_on, plain_kind, TypesHold, RowHolds, TypesStepped, RowStepped, TypesWalked, RowWalked};

use codes::{
    ELEMENT, EMPTY, FIRST, KIND, LEFT, LETTER_ELEMENT, LETTER_EMPTY, LETTER_LEFT, LETTER_RIGHT,
    LETTER_UNIT, PAIR, RIGHT, SECOND, UNIT, VARIABLE,
};
use fault_tallies::{count_pattern, count_type, first_part, has_two, second_part};
use limits::{LENGTHS, MAX_NODES};
use table_parts::pattern_part;
use table_trees::pattern_cell;

// Nothing is to come.
pub fn no_more(k: &mut [u64; LENGTHS])
    ensures { NothingHeld k.new }
{
    *k = [0; LENGTHS];
    k[0] = 1;
}

// The ways to go on, by letters and modulo m: all.
pub fn count_types(m: u64, t: &[u16], ts: &[usize; LENGTHS], top: usize, k: &mut [u64; LENGTHS])
    requires { top ≤ lengths }
    ensures { TypesHold m t.now ts.now k.new top }
{
    no_more(k);
    for c in (top..LENGTHS).rev() {
        count_type(m, t, ts[c], k);
    }
}

// Those that a row of patterns matches.
pub fn count_row(
    m: u64,
    t: &[u16],
    base: usize,
    ps: &[usize; LENGTHS],
    ts: &[usize; LENGTHS],
    top: usize,
    k: &mut [u64; LENGTHS],
)
    requires { top ≤ lengths }
    ensures { RowHolds m t.now base ps.now ts.now k.new top }
{
    no_more(k);
    for c in (top..LENGTHS).rev() {
        count_pattern(m, t, base, ps[c], ts[c], k);
    }
}

// The kind of the P lines that begin with a letter.
fn kind_on(c: u8) -> usize
    ensures { result ≡ kind_on c }
{
    match c {
        LETTER_UNIT => UNIT,
        LETTER_EMPTY => EMPTY,
        LETTER_LEFT => LEFT,
        LETTER_RIGHT => RIGHT,
        LETTER_ELEMENT => ELEMENT,
        _ => PAIR,
    }
}

// The T lines after one letter more; the place of the next one.
pub fn step_types(t: &[u16], ts: &mut [usize; LENGTHS], top: usize, c: u8) -> usize
    requires { (0 < top) × (top < lengths) }
    ensures { TypesStepped t.now c ts.old ts.new top result }
{
    let own = kind_on(c);
    let i = ts[top];
    if has_two(own) {
        let next = top - 1;
        ts[top] = second_part(t, i);
        ts[next] = first_part(t, i);
        return next;
    }
    if own == LEFT {
        ts[top] = first_part(t, i);
        return top;
    }
    if own == RIGHT {
        ts[top] = second_part(t, i);
        return top;
    }
    top + 1
}

// The kind of a P line; a number that is no kind stands for a unit.
fn kind_of(t: &[u16], base: usize, p: usize) -> usize
    ensures { result ≡ plain_kind (cell_of t.now (base + p) kind_field) }
{
    let kind = pattern_cell(t, base, p, KIND);
    if ELEMENT < kind {
        return UNIT;
    }
    kind
}

// The P lines after one letter more, if the row begins with it; the next one then stands where the next T line does.
pub fn step_row(t: &[u16], base: usize, ps: &mut [usize; LENGTHS], top: usize, c: u8) -> bool
    requires { (0 < top) × (top < lengths) }
    ensures { RowStepped t.now base c ps.old ps.new top result }
{
    let own = kind_on(c);
    let p = ps[top];
    let kind = kind_of(t, base, p);
    if kind == VARIABLE {
        if has_two(own) {
            ps[top - 1] = p;
        }
        return true;
    }
    if kind != own {
        return false;
    }
    if has_two(own) {
        ps[top] = pattern_part(t, base, p, SECOND);
        ps[top - 1] = pattern_part(t, base, p, FIRST);
        return true;
    }
    if own == LEFT || own == RIGHT {
        ps[top] = pattern_part(t, base, p, FIRST);
    }
    true
}

// The T lines still to come after some letters of a value of T line i, from the place that is given on.
pub fn walk_types(t: &[u16], i: usize, w: &[u8], ts: &mut [usize; LENGTHS]) -> usize
    requires { length w.now ≤ max_nodes }
    ensures { (result ≤ lengths) × TypesWalked t.now w.now ts.new i result }
{
    ts[MAX_NODES] = i;
    let mut top: usize = MAX_NODES;
    for c in w {
        if MAX_NODES < top {
            return LENGTHS;
        }
        top = step_types(t, ts, top, *c);
    }
    top
}

// The P lines still to come after some letters of a value that P line p matches, beside the T lines; none where none begins so.
pub fn walk_row(
    t: &[u16],
    base: usize,
    p: usize,
    i: usize,
    w: &[u8],
    ps: &mut [usize; LENGTHS],
    ts: &mut [usize; LENGTHS],
) -> Option<usize>
    requires { length w.now ≤ max_nodes }
    ensures { RowWalked t.now base w.now ps.new ts.new p i result }
{
    ps[MAX_NODES] = p;
    ts[MAX_NODES] = i;
    let mut top: usize = MAX_NODES;
    for c in w {
        if MAX_NODES < top {
            return None;
        }
        if !step_row(t, base, ps, top, *c) {
            return None;
        }
        top = step_types(t, ts, top, *c);
    }
    Some(top)
}
