// What the rows above a row tell of it.
#![tactic(auto)]

ghost use Rattle.std.specs.Prelude.{◌≡◌};
ghost use Rattle.format.specs.Code.{kind_view};
ghost use Rattle.read_seen.specs.Told.{start_seen, seen_after, SmallCounts};

use format::Kind;

// What the rows above tell: how far the order has come (0 T, 1 P, 2 I, 3 C, 4 L), how many T, P and I
// lines there are, how many C lines since the last I and L lines since the last C.
#[derive(Clone, Copy)]
pub struct Seen {
    pub stage: usize,
    pub types: usize,
    pub patterns: usize,
    pub isos: usize,
    pub clauses: usize,
    pub lets: usize,
}

pub fn nothing_seen() -> Seen
    ensures { result ≡ start_seen }
{
    Seen {
        stage: 0,
        types: 0,
        patterns: 0,
        isos: 0,
        clauses: 0,
        lets: 0,
    }
}

// What the rows tell with a row of this kind more.
pub fn seen_after(c: Seen, k: Kind) -> Seen
    requires { SmallCounts c }
    ensures { result ≡ seen_after (kind_view k) c }
{
    match k {
        Kind::Type => Seen {
            stage: 0,
            types: c.types + 1,
            ..c
        },
        Kind::Pattern => Seen {
            stage: 1,
            patterns: c.patterns + 1,
            ..c
        },
        Kind::Iso => Seen {
            stage: 2,
            isos: c.isos + 1,
            clauses: 0,
            lets: 0,
            ..c
        },
        Kind::Clause => Seen {
            stage: 3,
            clauses: c.clauses + 1,
            lets: 0,
            ..c
        },
        Kind::Let => Seen {
            stage: 4,
            lets: c.lets + 1,
            ..c
        },
    }
}
