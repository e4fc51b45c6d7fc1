// Closed values as letters in an area: whether one is of a type and where it then ends, and copying
// one to another place.
#![tactic(auto)]

ghost use Rattle.std.specs.Prelude.{◌≡◌, ◌≤◌, length, drop};
ghost use Rattle.std.proofs.Math.Seq.{slice};
ghost use Rattle.area_cells.specs.Areas.{Writes};
ghost use Rattle.calculus.specs.Trees.{tlist};
ghost use Rattle.table_trees.specs.Unfolding.{type_of};
ghost use Rattle.run_values.specs.Texts.{as_upto, behind, alone};

use codes::{
    FIRST, KIND, LETTER_ELEMENT, LETTER_EMPTY, LETTER_LEFT, LETTER_PAIR, LETTER_RIGHT, LETTER_UNIT,
    LIST, PRODUCT, SECOND, SUM,
};
use table_trees::{cell, smaller};

// Where the closed value of T line i ends that begins at a place.
#[cycle(list_end_typed_end)]
pub fn typed_end(t: &[u16], i: usize, s: &[u8], at: usize) -> Option<usize>
    ensures { as_upto s.now result ≡ behind (type_of t.now i) (drop at s.now) }
{
    if s.len() <= at {
        return None;
    }
    let b = s[at];
    let kind = cell(t, i, KIND);
    if kind == SUM {
        if b == LETTER_LEFT {
            return typed_end(t, smaller(cell(t, i, FIRST), i), s, at + 1);
        }
        if b == LETTER_RIGHT {
            return typed_end(t, smaller(cell(t, i, SECOND), i), s, at + 1);
        }
        return None;
    }
    if kind == PRODUCT {
        if b == LETTER_PAIR {
            let m = typed_end(t, smaller(cell(t, i, FIRST), i), s, at + 1)?;
            return typed_end(t, smaller(cell(t, i, SECOND), i), s, m);
        }
        return None;
    }
    if kind == LIST {
        return list_end(t, smaller(cell(t, i, FIRST), i), s, at);
    }
    if b == LETTER_UNIT {
        return Some(at + 1);
    }
    None
}

// Where the list of closed values of T line i ends that begins at a place.
#[cycle(list_end_typed_end)]
fn list_end(t: &[u16], i: usize, s: &[u8], at: usize) -> Option<usize>
    ensures { as_upto s.now result ≡ behind (tlist (type_of t.now i)) (drop at s.now) }
{
    let mut next = at;
    while next < s.len() {
        let b = s[next];
        if b == LETTER_EMPTY {
            return Some(next + 1);
        }
        if b != LETTER_ELEMENT {
            return None;
        }
        next = typed_end(t, i, s, next + 1)?;
    }
    None
}

// Whether the letters are exactly one closed value of T line i.
pub fn is_value(t: &[u16], i: usize, value: &[u8]) -> bool
    ensures { result ≡ alone (behind (type_of t.now i) value.now) }
{
    typed_end(t, i, value, 0).is_some_and(|n| value.len() <= n)
}

// Copies letters to a place behind them or before them.
pub fn copy_range(work: &mut [u8], from: usize, to: usize, at: usize) -> usize
    ensures writes { to ≤ at → Writes work.old work.new at result (slice from to work.old) }
    ensures writes_2 { at ≤ from → to ≤ length work.old
        → Writes work.old work.new at result (slice from to work.old) }
{
    if to <= from || work.len() < to || work.len() - (to - from) < at {
        return at;
    }
    work.copy_within(from..to, at);
    at + (to - from)
}
