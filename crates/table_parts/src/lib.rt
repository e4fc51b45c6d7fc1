// The lines that a T or P line names: its parts, where it has them.
#![tactic(auto)]

ghost use Rattle.std.specs.Prelude.{◌+◌, ◌≡◌, ◌<◌, ◌≤◌, length};
ghost use Rattle.limits.specs.Limits.{max_lines, row_width, table_length};
ghost use Rattle.table_trees.specs.Unfolding.{cell_of, smaller_of};
ghost use Rattle.table_parts.specs.Naming.{Parts};

use table_trees::{cell, field, pattern_cell, smaller};

// A P line and a T line.
#[derive(Clone, Copy)]
pub struct Lines {
    pub p: usize,
    pub a: usize,
}

// The T line that number k of T line a names.
pub fn type_part(t: &[u16], a: usize, k: usize) -> usize
    ensures { result ≡ smaller_of (cell_of t.now a k) a }
{
    smaller(cell(t, a, k), a)
}

// The P line that number k of P line p names.
pub fn pattern_part(t: &[u16], base: usize, p: usize, k: usize) -> usize
    ensures { result ≡ smaller_of (cell_of t.now (base + p) k) p }
{
    smaller(pattern_cell(t, base, p, k), p)
}

// The lines that number j of P line p and number k of T line a name, where both are earlier lines of a whole table.
pub fn parts_of(t: &[u16], base: usize, p: usize, a: usize, j: usize, k: usize) -> Option<Lines>
    requires { (table_length ≤ length t.now) × (base + p < max_lines) × (a < max_lines) × (j < row_width) × (k < row_width) }
    ensures { Parts t.now base p a j k result }
{
    let q = field(t, base + p, j);
    let b = field(t, a, k);
    if q < p && b < a {
        Some(Lines { p: q, a: b })
    } else {
        None
    }
}
