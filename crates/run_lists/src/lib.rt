// Which isos of an indexed table have to do with lists: a type of theirs, or of an iso that they reach, holds
// one. Each of those has a mark.
#![tactic(auto)]

ghost use Rattle.std.specs.Prelude.{◌≡◌, ◌≤◌, ◌<◌};
ghost use Rattle.limits.specs.Limits.{word_bound};
ghost use Rattle.calculus.specs.Lists.{list_free};
ghost use Rattle.table_trees.specs.Unfolding.{type_of};
ghost use Rattle.run_lists.specs.Marks.{LetsTold, ClausesTold, IsoTold, AllMarked, FreeTold};

use area_cells::{item_at, store};
use codes::{FIRST, ISO_FROM, ISO_TO, KIND, LET_ISO, LIST, PRODUCT, SECOND, SUM};
use limits::MAX_ISOS;
use run_direction::place;
use table_trees::{cell, smaller};

// Whether the type of T line i holds no list.
pub fn is_finite(t: &[u16], i: usize) -> bool
    ensures { result ≡ list_free (type_of t.now i) }
{
    match cell(t, i, KIND) {
        LIST => false,
        SUM | PRODUCT => {
            is_finite(t, smaller(cell(t, i, FIRST), i))
                && is_finite(t, smaller(cell(t, i, SECOND), i))
        }
        _ => true,
    }
}

// Whether no L row from a row up to another names an iso that has a mark.
fn lets_free(t: &[u16], marks: &[u8], row: usize, end: usize) -> bool
    ensures { LetsTold t.now marks.now row end result }
{
    for n in row..end {
        if item_at(marks, cell(t, n, LET_ISO), 0) != 0 {
            return false;
        }
    }
    true
}

// The same for the clauses from place m of the index up to another.
fn clauses_free(t: &[u16], marks: &[u8], index: &[u16], m: usize, end: usize) -> bool
    requires { end ≤ word_bound }
    ensures { ClausesTold t.now marks.now index.now m end result }
{
    for n in m..end {
        if !lets_free(t, marks, place(index, n) + 1, place(index, n + 1)) {
            return false;
        }
    }
    true
}

// Whether the iso whose I row stands at place m of the index, with the C rows up to another, has nothing to
// do with lists; the marks of the isos before it are known.
fn iso_free(t: &[u16], marks: &[u8], index: &[u16], m: usize, end: usize) -> bool
    requires { (m < word_bound) × (end ≤ word_bound) }
    ensures { IsoTold t.now marks.now index.now m end result }
{
    let row = place(index, m);
    is_finite(t, cell(t, row, ISO_FROM))
        && is_finite(t, cell(t, row, ISO_TO))
        && clauses_free(t, marks, index, m + 1, end)
}

// Marks the isos in order, in an area of zeros.
pub fn mark_lists(t: &[u16], index: &[u16], isos: usize, marks: &mut [u8])
    ensures { AllMarked t.now index.now isos marks.old marks.new }
{
    for i in 0..isos {
        let free = iso_free(t, marks, index, place(index, i), place(index, i + 1));
        store(marks, i, u8::from(!free));
    }
}

// Whether iso i has nothing to do with lists.
pub fn is_free(t: &[u16], index: &[u16], isos: usize, i: usize) -> bool
    ensures { FreeTold t.now index.now isos i result }
{
    let mut marks = [0u8; MAX_ISOS];
    mark_lists(t, index, isos, &mut marks);
    item_at(&marks, i, 0) == 0
}
