// Rows of one letter in a lent area of table rows, each once: "no equal line twice".
#![tactic(auto)]

ghost use Rattle.std.specs.Prelude.{◌≡◌, List, ◌<◌};
ghost use Rattle.limits.specs.Limits.{max_lines};
ghost use Rattle.calculus.specs.Refusals.{Kind};
ghost use Rattle.format.specs.Lines.{Row as RowOf};
ghost use Rattle.law_pairlists.specs.PairLists.{find};
ghost use Rattle.list_entries.specs.Entries.{row_of, entries_at, same_entry, store_entry, Entering};

use area_cells::store;
use area_words::narrow;
use codes::{FIRST, KIND, SECOND};
use limits::{MAX_PATTERNS, ROW_WIDTH};
use table_trees::cell;

// One row more than a file may have of a letter, so that a file past its ceiling is told.
pub const MAX_ENTRIES: usize = MAX_PATTERNS + 1;

// The number of a row, and the end of the rows with it.
#[derive(Clone, Copy)]
pub struct Entry {
    pub number: usize,
    pub end: usize,
}

// Whether a row holds these three numbers.
#[tactic(auto, unfolding(crate::specs::Entries::same_entry))]
fn same_entry(s: &[u16], row: usize, x: usize, y: usize, z: usize) -> bool
    ensures { result ≡ same_entry s.now row x y z }
{
    x == cell(s, row, KIND) && y == cell(s, row, FIRST) && z == cell(s, row, SECOND)
}

// The number of the first of the rows up to row `to` that holds these three numbers, or how many rows there are.
fn find_entry(s: &[u16], to: usize, x: usize, y: usize, z: usize) -> usize
    ensures { (k : Kind) → result ≡ find (row_of k x y z) (entries_at k s.now 0 to) }
{
    for i in 0..to {
        if same_entry(s, i, x, y, z) {
            return i;
        }
    }
    to
}

// Stores three numbers as a row.
pub fn store_entry(s: &mut [u16], row: usize, x: usize, y: usize, z: usize)
    requires { row < max_lines }
    ensures { s.new ≡ store_entry s.old row x y z }
{
    store(s, row * ROW_WIDTH + KIND, narrow(x));
    store(s, row * ROW_WIDTH + FIRST, narrow(y));
    store(s, row * ROW_WIDTH + SECOND, narrow(z));
}

// Enters a row among those up to row `to`, unless it is there; no more than 1,025.
pub fn enter_entry(s: &mut [u16], to: usize, x: usize, y: usize, z: usize) -> Entry
    ensures { (k : Kind) (rs : List RowOf) → Entering k s.old s.new to x y z result.number result.end rs }
{
    let n = find_entry(s, to, x, y, z);
    if n < to || MAX_ENTRIES <= to {
        return Entry { number: n, end: to };
    }
    store_entry(s, to, x, y, z);
    Entry {
        number: n,
        end: to + 1,
    }
}
