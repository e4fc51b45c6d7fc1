// Counts of closed values by their letters, modulo a number.
#![tactic(auto)]

ghost use Rattle.std.specs.Prelude.{◌≡◌, ◌≤◌};
ghost use Rattle.limits.specs.Fields.{first_field, second_field};
ghost use Rattle.limits.specs.Limits.{max_nodes};
ghost use Rattle.calculus.specs.Trees.{left, right};
ghost use Rattle.table_trees.specs.Unfolding.{cell_of, smaller_of, type_of, pattern_of};
ghost use Rattle.fault_tallies.specs.Tallies.{plus_of, Shifts, Adds, Copies, Halved, part_of, HasTwo, Lays, Steps, Flows, CountsType, AddsType, CountsIn};

use area_cells::item_at;
use codes::{ELEMENT, FIRST, KIND, LEFT, LIST, PAIR, PRODUCT, RIGHT, SECOND, SIZE, SUM, VARIABLE};
use limits::{LENGTHS, MAX_NODES};
use table_parts::{pattern_part, type_part};
use table_trees::{cell, pattern_cell};

// 2^64 - 1 and 2^64 - 2: a number of at most 127 letters is 0 where both leave nothing over.
pub const MODULUS: u64 = 18446744073709551615;

pub const OTHER_MODULUS: u64 = 18446744073709551614;

// Two letters a round.
const ROUNDS: usize = LENGTHS / 2;

// The sum of two counts.
pub fn plus(m: u64, x: u64, y: u64) -> u64
    ensures { result ≡ plus_of m x y }
{
    let room = m.saturating_sub(y);
    if x < room { x + y } else { x - room }
}

// One letter more before all.
pub fn shift(k: &mut [u64; LENGTHS])
    ensures { Shifts k.old k.new }
{
    k.copy_within(..MAX_NODES, 1);
    k[0] = 0;
}

// Counts with others added.
pub fn add(m: u64, k: &mut [u64; LENGTHS], o: &[u64; LENGTHS])
    ensures { Adds m k.old o.now k.new }
{
    for (i, x) in k.iter_mut().enumerate() {
        *x = plus(m, *x, o[i]);
    }
}

// The same counts once more.
pub fn copy(k: &[u64; LENGTHS], o: &mut [u64; LENGTHS])
    ensures { Copies k.now o.new }
{
    *o = *k;
}

// The two parts of a T line: the one with fewer nodes, by the table's sizes, and the other.
#[derive(Clone, Copy)]
struct Parts {
    few: usize,
    many: usize,
}

fn halves(t: &[u16], i: usize) -> Parts
    ensures { Halved (smaller_of (cell_of t.now i first_field) i) (smaller_of (cell_of t.now i second_field) i) result.few result.many }
{
    let a = type_part(t, i, FIRST);
    let b = type_part(t, i, SECOND);
    if cell(t, a, SIZE) < cell(t, b, SIZE) {
        return Parts { few: a, many: b };
    }
    Parts { few: b, many: a }
}

// Lays the nodes of T line i from a place on, with the places where a value can go on after each: at most 127 nodes, all else goes on at `end`.
// The place behind them.
fn lay(
    t: &[u16],
    i: usize,
    at: usize,
    end: usize,
    one: &mut [usize; LENGTHS],
    two: &mut [usize; LENGTHS],
) -> usize
    ensures { Lays (type_of t.now i) at end one.old two.old one.new two.new result }
{
    if MAX_NODES <= at {
        return at;
    }
    let kind = cell(t, i, KIND);
    let next = at + 1;
    if kind == SUM {
        let middle = lay(t, type_part(t, i, FIRST), next, end, one, two);
        let last = lay(t, type_part(t, i, SECOND), middle, end, one, two);
        one[at] = next;
        two[at] = middle;
        return last;
    }
    if kind == PRODUCT {
        let middle = lay(t, type_part(t, i, SECOND), next, end, one, two);
        let last = lay(t, type_part(t, i, FIRST), middle, next, one, two);
        one[at] = middle;
        two[at] = LENGTHS;
        return last;
    }
    if kind == LIST {
        let last = lay(t, type_part(t, i, FIRST), next, at, one, two);
        one[at] = next;
        two[at] = end;
        return last;
    }
    one[at] = end;
    two[at] = LENGTHS;
    next
}

// One letter more: at each of n places the sum of the two that follow.
fn step(
    m: u64,
    one: &[usize; LENGTHS],
    two: &[usize; LENGTHS],
    n: usize,
    v: &[u64],
    u: &mut [u64; LENGTHS],
)
    requires { n ≤ max_nodes }
    ensures { Steps m one.now two.now n v.now u.old u.new }
{
    for x in 0..n {
        let a = item_at(v, one[x], 0);
        let b = item_at(v, two[x], 0);
        u[x] = plus(m, a, b);
    }
}

// k holds the ways to go on behind a type of n nodes; those from place 0 on. Two letters a round, from v to u and back.
fn flow_counts(
    m: u64,
    one: &[usize; LENGTHS],
    two: &[usize; LENGTHS],
    n: usize,
    k: &mut [u64; LENGTHS],
)
    requires { n ≤ max_nodes }
    ensures { Flows m one.now two.now n k.old k.new }
{
    let mut v = [0u64; LENGTHS];
    let mut u = [0u64; LENGTHS];
    for h in 0..ROUNDS {
        let r = 2 * h;
        v[MAX_NODES] = k[r];
        k[r] = v[0];
        step(m, one, two, n, &v, &mut u);
        let s = r + 1;
        u[MAX_NODES] = k[s];
        k[s] = u[0];
        step(m, one, two, n, &u, &mut v);
    }
}

// k holds the ways to go on; a closed value of T line i before them, place by place, as lists need it.
fn count_list(m: u64, t: &[u16], i: usize, k: &mut [u64; LENGTHS])
    ensures { CountsType m (type_of t.now i) k.old k.new }
{
    let mut one = [0usize; LENGTHS];
    let mut two = [0usize; LENGTHS];
    let n = lay(t, i, 0, MAX_NODES, &mut one, &mut two);
    if n <= MAX_NODES {
        flow_counts(m, &one, &two, n, k);
    }
}

// k holds the ways to go on; a closed value of T line i before them.
#[cycle(add_type_count_type)]
pub fn count_type(m: u64, t: &[u16], i: usize, k: &mut [u64; LENGTHS])
    ensures { CountsType m (type_of t.now i) k.old k.new }
{
    let mut o = [0u64; LENGTHS];
    add_type(m, t, i, k, &mut o);
    *k = o;
}

// w holds the ways to go on; those with a closed value of T line i before them are added. Of each node the part with fewer nodes is counted by
// a call and the other one in the loop, so that calls nest no deeper than a type's nodes can be halved.
#[cycle(add_type_count_type)]
fn add_type(m: u64, t: &[u16], i: usize, w: &[u64; LENGTHS], sum: &mut [u64; LENGTHS])
    ensures { AddsType m (type_of t.now i) w.now sum.old sum.new }
{
    let mut k = *w;
    let mut j = i;
    loop {
        let kind = cell(t, j, KIND);
        if kind == LIST {
            count_list(m, t, j, &mut k);
            add(m, sum, &k);
            return;
        }
        shift(&mut k);
        if kind == SUM {
            let h = halves(t, j);
            add_type(m, t, h.few, &k, sum);
            j = h.many;
        } else if kind == PRODUCT {
            let h = halves(t, j);
            count_type(m, t, h.few, &mut k);
            j = h.many;
        } else {
            add(m, sum, &k);
            return;
        }
    }
}

// The T line of the first part of T line i, of a list the element, or one that is a unit.
pub fn first_part(t: &[u16], i: usize) -> usize
    ensures { type_of t.now result ≡ part_of left (type_of t.now i) }
{
    match cell(t, i, KIND) {
        SUM | PRODUCT | LIST => type_part(t, i, FIRST),
        _ => i,
    }
}

// The same of the second part, of a list the list itself.
pub fn second_part(t: &[u16], i: usize) -> usize
    ensures { type_of t.now result ≡ part_of right (type_of t.now i) }
{
    match cell(t, i, KIND) {
        SUM | PRODUCT => type_part(t, i, SECOND),
        _ => i,
    }
}

// Whether a P line of this kind has two parts: a pair, or an element before a list.
pub fn has_two(kind: usize) -> bool
    ensures { HasTwo kind result }
{
    matches!(kind, PAIR | ELEMENT)
}

// k holds the ways to go on; a closed value of T line i that P line p matches before them.
pub fn count_pattern(m: u64, t: &[u16], base: usize, p: usize, i: usize, k: &mut [u64; LENGTHS])
    ensures { CountsIn m (pattern_of t.now base p) (type_of t.now i) k.old k.new }
{
    let kind = pattern_cell(t, base, p, KIND);
    if kind == VARIABLE {
        count_type(m, t, i, k);
        return;
    }
    if kind == LEFT {
        count_pattern(
            m,
            t,
            base,
            pattern_part(t, base, p, FIRST),
            first_part(t, i),
            k,
        );
        shift(k);
        return;
    }
    if kind == RIGHT {
        count_pattern(
            m,
            t,
            base,
            pattern_part(t, base, p, FIRST),
            second_part(t, i),
            k,
        );
        shift(k);
        return;
    }
    if has_two(kind) {
        count_pattern(
            m,
            t,
            base,
            pattern_part(t, base, p, SECOND),
            second_part(t, i),
            k,
        );
        count_pattern(
            m,
            t,
            base,
            pattern_part(t, base, p, FIRST),
            first_part(t, i),
            k,
        );
        shift(k);
        return;
    }
    shift(k);
}
