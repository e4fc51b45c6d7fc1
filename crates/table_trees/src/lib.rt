// The rows of the table, and which line a T or P line names. P lines are numbered from `base`, the row of the
// first one.
#![tactic(auto)]

ghost use Rattle.std.specs.Prelude.{◌≡◌, ◌+◌, ◌<◌, ◌≤◌, length};
ghost use Rattle.limits.specs.Limits.{max_lines, row_width, table_length, word_bound};
ghost use Rattle.table_trees.specs.Unfolding.{cell_of, smaller_of};

use area_cells::item_at;
use area_words::wide;
use limits::{MAX_LINES, ROW_WIDTH};

// The rows of the table, and the line that unfolds to a unit for want of a row.
pub const ROWS: usize = MAX_LINES;

// Number k of a row: 0 the letter, then the fields; 0 where there is no such row.
pub fn cell(t: &[u16], row: usize, k: usize) -> usize
    ensures { (result ≡ cell_of t.now row k) × (result < word_bound) }
{
    if ROWS <= row {
        return 0;
    }
    if ROW_WIDTH <= k {
        return 0;
    }
    wide(item_at(t, row * ROW_WIDTH + k, 0))
}

// The same of a whole table, where there is such a number.
pub fn field(t: &[u16], row: usize, k: usize) -> usize
    requires { (table_length ≤ length t.now) × (row < max_lines) × (k < row_width) }
    ensures { result ≡ cell_of t.now row k }
{
    wide(t[row * ROW_WIDTH + k])
}

// A named line if it stands earlier than the line that names it; else one that unfolds to a unit.
pub fn smaller(a: usize, i: usize) -> usize
    ensures { result ≡ smaller_of a i }
{
    if a < i { a } else { ROWS }
}

// Number k of the row of P line j.
pub fn pattern_cell(t: &[u16], base: usize, j: usize, k: usize) -> usize
    ensures { (result ≡ cell_of t.now (base + j) k) × (result < word_bound) }
{
    if ROWS <= base {
        return 0;
    }
    if ROWS <= j {
        return 0;
    }
    cell(t, base + j, k)
}
