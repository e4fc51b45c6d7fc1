// The left, right, empty and element nodes of the trees that the table's T and P lines unfold to, by recursion over lines whose
// numbers fall. Their nodes stand in the table.
#![tactic(auto)]

ghost use Rattle.std.specs.Prelude.{◌≡◌, ◌+◌, min};
ghost use Rattle.limits.specs.Limits.{many_tags, many_nodes};
ghost use Rattle.calculus.specs.Trees.{tags, most_tags};
ghost use Rattle.table_sizes.specs.Joined.{join_tags};
ghost use Rattle.table_trees.specs.Unfolding.{type_of, pattern_of};

use codes::{ELEMENT, EMPTY, FIRST, KIND, LEFT, PAIR, PRODUCT, RIGHT, SECOND, SUM};
use limits::{MANY_NODES, MANY_TAGS};
use table_trees::{cell, pattern_cell, smaller};

// One node above two trees, at most 128 nodes told apart.
pub fn above(m: usize, n: usize) -> usize
    ensures { result ≡ min many_nodes (1 + m + n) }
{
    m.saturating_add(n).saturating_add(1).min(MANY_NODES)
}

// Two counts together, at most 41 told apart.
pub fn together(m: usize, n: usize) -> usize
    ensures { result ≡ min many_tags (m + n) }
{
    m.saturating_add(n).min(MANY_TAGS)
}

// The left and right nodes of the values of a sum (kind 1) or product, from the most of those of its parts.
fn joined(kind: usize, m: usize, n: usize) -> usize
    ensures { result ≡ min many_tags (join_tags kind m n) }
{
    if kind == SUM {
        together(1, m.max(n))
    } else {
        together(m, n)
    }
}

// The most left and right nodes that a closed value of T line i has; 41 stands for more than 40.
pub fn type_tags(t: &[u16], i: usize) -> usize
    ensures { result ≡ min many_tags (most_tags (type_of t.now i)) }
{
    let kind = cell(t, i, KIND);
    match kind {
        SUM | PRODUCT => {
            let a = smaller(cell(t, i, FIRST), i);
            let b = smaller(cell(t, i, SECOND), i);
            joined(kind, type_tags(t, a), type_tags(t, b))
        }
        _ => 0,
    }
}

// The left, right, empty and element nodes of P line j, unfolded; 41 stands for more than 40.
pub fn pattern_tags(t: &[u16], base: usize, j: usize) -> usize
    ensures { result ≡ min many_tags (tags (pattern_of t.now base j)) }
{
    match pattern_cell(t, base, j, KIND) {
        LEFT | RIGHT => {
            let a = smaller(pattern_cell(t, base, j, FIRST), j);
            together(1, pattern_tags(t, base, a))
        }
        PAIR => {
            let a = smaller(pattern_cell(t, base, j, FIRST), j);
            let b = smaller(pattern_cell(t, base, j, SECOND), j);
            together(pattern_tags(t, base, a), pattern_tags(t, base, b))
        }
        EMPTY => 1,
        ELEMENT => {
            let a = smaller(pattern_cell(t, base, j, FIRST), j);
            let b = smaller(pattern_cell(t, base, j, SECOND), j);
            let tail = together(1, pattern_tags(t, base, b));
            together(pattern_tags(t, base, a), tail)
        }
        _ => 0,
    }
}
