// Types and patterns of the table as trees: same type, let shapes. Each recurses over T and P lines whose
// numbers fall.
#![tactic(auto)]

ghost use Rattle.std.specs.Prelude.{◌≡◌};
ghost use Rattle.calculus.specs.Trees.{same_type};
ghost use Rattle.calculus.specs.Clauses.{plain};
ghost use Rattle.table_trees.specs.Unfolding.{type_of, pattern_of};
ghost use Rattle.check_shapes.specs.Naming.{names_nothing};

use codes::{ELEMENT, EMPTY, FIRST, KIND, LEFT, LIST, PAIR, PRODUCT, RIGHT, SECOND, SUM};
use table_parts::{pattern_part, type_part};
use table_trees::{cell, pattern_cell};

// Whether a T line of this kind names no parts.
pub fn names_nothing(kind: usize) -> bool
    ensures { result ≡ names_nothing kind }
{
    match kind {
        SUM | PRODUCT | LIST => false,
        _ => true,
    }
}

// Whether T lines a and b unfold to the same tree.
pub fn same_type(t: &[u16], a: usize, b: usize) -> bool
    ensures { result ≡ same_type (type_of t.now a) (type_of t.now b) }
{
    if a == b {
        return true;
    }
    let ka = cell(t, a, KIND);
    let kb = cell(t, b, KIND);
    if names_nothing(ka) {
        return names_nothing(kb);
    }
    if ka != kb {
        return false;
    }
    let c = type_part(t, a, FIRST);
    let d = type_part(t, b, FIRST);
    same_type(t, c, d)
        && (ka == LIST || same_type(t, type_part(t, a, SECOND), type_part(t, b, SECOND)))
}

// Whether P line p holds only unit, variables and pairs.
pub fn is_plain(t: &[u16], base: usize, p: usize) -> bool
    ensures { result ≡ plain (pattern_of t.now base p) }
{
    match pattern_cell(t, base, p, KIND) {
        LEFT | RIGHT => false,
        PAIR => {
            let a = pattern_part(t, base, p, FIRST);
            is_plain(t, base, a) && is_plain(t, base, pattern_part(t, base, p, SECOND))
        }
        EMPTY => false,
        ELEMENT => false,
        _ => true,
    }
}
