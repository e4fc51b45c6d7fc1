// Where each iso and each clause begins, found once. The rows of the I and C lines stand from place
// `first` of the index on, the number of rows behind them at its end; number i is the place of iso i's
// row, and behind the last iso's stands that end.
#![tactic(auto)]

ghost use Rattle.std.specs.Prelude.{◌<◌, ◌≡◌, drop};
ghost use Rattle.run_index.specs.Indexed.{KindIndexed, RowIndexed, IsosIndexed, TailKept};
ghost use Rattle.run_index.specs.Index.{index_length};
ghost use Rattle.calculus.specs.Refusals.{iso_line, clause_line};

use area_cells::store;
use area_words::narrow;
use codes::{CLAUSE_LINE, ISO_LINE, ROW_LETTER};
use limits::INDEX_END;
use table_trees::cell;

// Where the next row up goes, and how many isos are still to come.
#[derive(Clone, Copy)]
pub struct Left {
    pub first: usize,
    pub isos: usize,
}

// The index with the C row n.
fn with_clause(index: &mut [u16], l: Left, n: usize) -> Left
    ensures kind_indexed { KindIndexed clause_line n index.old l index.new result }
    ensures tail_kept { TailKept index.old l index.new result }
{
    if l.first == 0 {
        return l;
    }
    let slot = l.first - 1;
    store(index, slot, narrow(n));
    Left { first: slot, ..l }
}

// The index with the I row n.
fn with_iso(index: &mut [u16], l: Left, n: usize) -> Left
    ensures kind_indexed { KindIndexed iso_line n index.old l index.new result }
    ensures tail_kept { TailKept index.old l index.new result }
{
    if l.first == 0 || l.isos == 0 {
        return l;
    }
    let slot = l.first - 1;
    let own = l.isos - 1;
    store(index, slot, narrow(n));
    store(index, own, narrow(slot));
    Left {
        first: slot,
        isos: own,
    }
}

// The index with row n. An L row leaves it as it is.
fn with_row(t: &[u16], index: &mut [u16], l: Left, n: usize) -> Left
    ensures row_indexed { RowIndexed t.now n index.old l index.new result }
    ensures tail_kept { TailKept index.old l index.new result }
{
    match cell(t, n, ROW_LETTER) {
        CLAUSE_LINE => with_clause(index, l, n),
        ISO_LINE => with_iso(index, l, n),
        _ => l,
    }
}

// Indexes the isos of a table of `lines` rows, of which the first `above` are T and P lines.
pub fn index_isos(t: &[u16], above: usize, lines: usize, isos: usize, index: &mut [u16])
    ensures isos_indexed { IsosIndexed t.now above lines isos index.old index.new }
    ensures index_unchanged { isos < index_length → drop index_length index.new ≡ drop index_length index.old }
{
    store(index, INDEX_END, narrow(lines));
    store(index, isos, INDEX_END as u16);
    let mut l = Left {
        first: INDEX_END,
        isos,
    };
    for n in (above..lines).rev() {
        l = with_row(t, index, l, n);
    }
}
