// The least value of a type, of a pattern, and of two patterns, as letters in an area.
#![tactic(auto)]

ghost use Rattle.std.specs.Prelude.{◌≡◌, min, length};
ghost use Rattle.limits.specs.Limits.{lengths};
ghost use Rattle.calculus.specs.Letters.{letters};
ghost use Rattle.law_witnesses.specs.Seeking.{least};
ghost use Rattle.table_trees.specs.Unfolding.{type_of, pattern_of};
ghost use Rattle.fault_meets.specs.Spelled.{SpellsLeast, SpellsIn, SpellsBoth};

use area_cells::put_byte;
use codes::{
    ELEMENT, FIRST, KIND, LEFT, LETTER_EMPTY, LETTER_LEFT, LETTER_PAIR, LETTER_RIGHT, LETTER_UNIT,
    LIST, PAIR, PRODUCT, RIGHT, SECOND, SUM, VARIABLE,
};
use fault_tallies::{first_part, second_part};
use run_patterns::letter;
use table_parts::{pattern_part, type_part};
use table_sizes::above;
use table_trees::{cell, pattern_cell};

// The letters of the least value of T line i; 128 stands for more than 127.
pub fn least_length(t: &[u16], i: usize) -> usize
    ensures { result ≡ min lengths (length (letters (least (type_of t.now i)))) }
{
    match cell(t, i, KIND) {
        SUM => {
            let m = least_length(t, type_part(t, i, FIRST));
            let n = least_length(t, type_part(t, i, SECOND));
            above(m.min(n), 0)
        }
        PRODUCT => {
            let m = least_length(t, type_part(t, i, FIRST));
            above(m, least_length(t, type_part(t, i, SECOND)))
        }
        _ => 1,
    }
}

// Writes the least value of T line i from a place on, and gives the place behind it.
pub fn write_least(t: &[u16], i: usize, out: &mut [u8], at: usize) -> usize
    ensures { SpellsLeast (type_of t.now i) out.old out.new at result }
{
    match cell(t, i, KIND) {
        SUM => {
            let a = type_part(t, i, FIRST);
            let b = type_part(t, i, SECOND);
            if least_length(t, a) <= least_length(t, b) {
                let next = put_byte(out, at, LETTER_LEFT);
                write_least(t, a, out, next)
            } else {
                let next = put_byte(out, at, LETTER_RIGHT);
                write_least(t, b, out, next)
            }
        }
        PRODUCT => {
            let next = put_byte(out, at, LETTER_PAIR);
            let middle = write_least(t, type_part(t, i, FIRST), out, next);
            write_least(t, type_part(t, i, SECOND), out, middle)
        }
        LIST => put_byte(out, at, LETTER_EMPTY),
        _ => put_byte(out, at, LETTER_UNIT),
    }
}

// The same for the least value of T line i that P line p matches.
pub fn write_least_in(
    t: &[u16],
    base: usize,
    p: usize,
    i: usize,
    out: &mut [u8],
    at: usize,
) -> usize
    ensures { SpellsIn (pattern_of t.now base p) (type_of t.now i) out.old out.new at result }
{
    let kind = pattern_cell(t, base, p, KIND);
    if kind == VARIABLE {
        return write_least(t, i, out, at);
    }
    let next = put_byte(out, at, letter(kind));
    let a = pattern_part(t, base, p, FIRST);
    match kind {
        PAIR | ELEMENT => {
            let b = pattern_part(t, base, p, SECOND);
            let middle = write_least_in(t, base, a, first_part(t, i), out, next);
            write_least_in(t, base, b, second_part(t, i), out, middle)
        }
        LEFT => write_least_in(t, base, a, first_part(t, i), out, next),
        RIGHT => write_least_in(t, base, a, second_part(t, i), out, next),
        _ => next,
    }
}

// The same for the least value of T line i that P lines p and q both match, where they do not clash.
pub fn write_common(
    t: &[u16],
    base: usize,
    p: usize,
    q: usize,
    i: usize,
    out: &mut [u8],
    at: usize,
) -> usize
    ensures { SpellsBoth (pattern_of t.now base p) (pattern_of t.now base q)
        (type_of t.now i) out.old out.new at result }
{
    let kp = pattern_cell(t, base, p, KIND);
    if kp == VARIABLE {
        return write_least_in(t, base, q, i, out, at);
    }
    let kq = pattern_cell(t, base, q, KIND);
    if kq == VARIABLE {
        return write_least_in(t, base, p, i, out, at);
    }
    let next = put_byte(out, at, letter(kp));
    let a = pattern_part(t, base, p, FIRST);
    let c = pattern_part(t, base, q, FIRST);
    match kp {
        PAIR | ELEMENT => {
            let b = pattern_part(t, base, p, SECOND);
            let d = pattern_part(t, base, q, SECOND);
            let middle = write_common(t, base, a, c, first_part(t, i), out, next);
            write_common(t, base, b, d, second_part(t, i), out, middle)
        }
        LEFT => write_common(t, base, a, c, first_part(t, i), out, next),
        RIGHT => write_common(t, base, a, c, second_part(t, i), out, next),
        _ => next,
    }
}
