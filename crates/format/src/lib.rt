// The types that every layer shares. What their cases mean stands in specs/Code.antt, by document
// 01's numbers and words; the definitions that contracts cite stand in specs/, the laws in proofs/.
#![tactic(auto)]

ghost use Rattle.std.specs.Prelude.{◌≡◌};
ghost use Rattle.calculus.specs.Refusals.{number};
ghost use Rattle.calculus.specs.Tools.{is_some};
ghost use Rattle.format.specs.Code.{fault_view, refusal_view, number_of};

// The five line forms.
#[derive(Clone, Copy)]
pub enum Kind {
    Type,
    Pattern,
    Iso,
    Clause,
    Let,
}

// A line as the table holds it: its kind and its fields, a missing third one being 0.
#[derive(Clone, Copy)]
pub struct Row {
    pub kind: Kind,
    pub x: usize,
    pub y: usize,
    pub z: usize,
}

// A side of an iso's clauses.
#[derive(Clone, Copy)]
pub enum Side {
    Left,
    Right,
}

// Why a call is refused. A case holds the faulty line's kind; `BadLine` is that of no kind, and the others
// that hold none name no line.
#[derive(Clone, Copy)]
pub enum Refusal {
    ShortArea,
    TooLong,
    BadLine,
    Misplaced(Kind),
    BadField(Kind),
    BadName(Kind),
    Ceiling(Kind),
    Variable(Kind),
    LetShape(Kind),
    BadType(Kind),
    Overlap(Kind, Side),
    Gap(Kind, Side),
    NoIso,
    NoValue,
    Spent,
    TooMany,
    TooHigh,
    BadList,
    Idle(Kind),
    BadScript,
    Recursion(Kind),
    TooLarge,
}

// A refusal and its line, counted over the file from 1; 0 where no line is named.
#[derive(Clone, Copy)]
pub struct Answer {
    pub place: usize,
    pub refusal: Option<Refusal>,
}

// Whether an answer is a refusal.
pub fn is_refused(f: Option<Refusal>) -> bool
    ensures { result ≡ is_some (refusal_view f) }
{
    f.is_some()
}

impl Refusal {
    // Document 01's number.
    pub fn number(self) -> u8
        ensures { result ≡ number (fault_view self) }
    {
        match self {
            Refusal::ShortArea => 1,
            Refusal::TooLong => 2,
            Refusal::BadLine => 3,
            Refusal::Misplaced(_) => 4,
            Refusal::BadField(_) => 5,
            Refusal::BadName(_) => 6,
            Refusal::Ceiling(_) => 7,
            Refusal::Variable(_) => 8,
            Refusal::LetShape(_) => 9,
            Refusal::BadType(_) => 10,
            Refusal::Overlap(_, Side::Left) => 11,
            Refusal::Overlap(_, Side::Right) => 12,
            Refusal::Gap(_, Side::Left) => 13,
            Refusal::Gap(_, Side::Right) => 14,
            Refusal::NoIso => 15,
            Refusal::NoValue => 16,
            Refusal::Spent => 17,
            Refusal::TooMany => 18,
            Refusal::TooHigh => 19,
            Refusal::BadList => 20,
            Refusal::Idle(_) => 21,
            Refusal::BadScript => 22,
            Refusal::Recursion(_) => 23,
            Refusal::TooLarge => 24,
        }
    }
}

// Document 01's number of an answer, 0 where nothing is refused.
pub fn number_of(r: Option<Refusal>) -> u8
    ensures { result ≡ number_of r }
{
    match r {
        Some(f) => f.number(),
        None => 0,
    }
}
