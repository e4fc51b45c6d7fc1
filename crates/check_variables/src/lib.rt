// The variables that a pattern of the table binds or uses, marked one by one.
#![tactic(auto)]

ghost use Rattle.std.specs.Prelude.{◌≡◌};
ghost use Rattle.calculus.specs.Trees.{vars};
ghost use Rattle.table_trees.specs.Unfolding.{pattern_of};
ghost use Rattle.check_variables.specs.Marks.{deed_view, next_state, mark_one, mark_all, settled_all};

use codes::{ELEMENT, FIRST, KIND, LEFT, PAIR, RIGHT, SECOND, UNIT, VARIABLE};
use limits::VARIABLES;
use table_parts::pattern_part;
use table_trees::pattern_cell;

// How each variable of a clause stands: 0 not live, 1 live, 2 out of order, as the numbers of the definitions `next_state` and
// `settled_all`.
#[derive(Clone, Copy)]
pub struct Marks {
    pub state: [u8; VARIABLES],
}

// The state after one more deed, a binding or a use.
fn next_state(binds: bool, s: u8) -> u8
    ensures { result ≡ next_state (deed_view binds) s }
{
    match (binds, s) {
        (true, 0) => 1,
        (false, 1) => 0,
        _ => 2,
    }
}

// The marks after one more deed of variable n, the same where there is no such variable.
fn mark_one(binds: bool, n: usize, m: Marks) -> Marks
    ensures { result.state ≡ mark_one (deed_view binds) n m.state }
{
    if n < VARIABLES {
        let mut next = m;
        next.state[n] = next_state(binds, m.state[n]);
        return next;
    }
    m
}

// The marks after the variables of P line p are bound, or used.
pub fn mark(t: &[u16], base: usize, p: usize, binds: bool, m: Marks) -> Marks
    ensures { result.state ≡ mark_all (deed_view binds) (vars (pattern_of t.now base p)) m.state }
{
    let kind = pattern_cell(t, base, p, KIND);
    if kind == UNIT {
        return m;
    }
    if kind == VARIABLE {
        return mark_one(binds, pattern_cell(t, base, p, FIRST), m);
    }
    match kind {
        LEFT | RIGHT => {
            let a = pattern_part(t, base, p, FIRST);
            mark(t, base, a, binds, m)
        }
        PAIR | ELEMENT => {
            let a = pattern_part(t, base, p, FIRST);
            let first = mark(t, base, a, binds, m);
            let b = pattern_part(t, base, p, SECOND);
            mark(t, base, b, binds, first)
        }
        _ => m,
    }
}

// Whether no variable is live, and each was bound only while not live and used only while live. A `for`, since the proof of
// `all` has not closed.
pub fn settled(m: Marks) -> bool
    ensures { result ≡ settled_all m.state }
{
    for s in &m.state {
        if *s != 0 {
            return false;
        }
    }
    true
}
