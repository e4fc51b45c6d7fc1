// The table of line forms: a kind's letter, its number of fields, and the kind of a letter.
#![tactic(auto)]

ghost use Rattle.std.specs.Prelude.{◌≡◌};
ghost use Rattle.format.specs.Lines.{letter, field_count, kind_of};
ghost use Rattle.format.specs.Code.{kind_view};
ghost use Rattle.read_forms.specs.Views.{as_letter};

use format::Kind;

// The five line forms, T, P, I, C, L: the letter's code, then the number of fields after it.
pub const FORMS: [u8; 10] = [84, 3, 80, 3, 73, 2, 67, 2, 76, 3];

// The letters of the table, and the numbers of fields.
const T: u8 = FORMS[0];

const P: u8 = FORMS[2];

const I: u8 = FORMS[4];

const C: u8 = FORMS[6];

const L: u8 = FORMS[8];

const T_FIELDS: u8 = FORMS[1];

const P_FIELDS: u8 = FORMS[3];

const I_FIELDS: u8 = FORMS[5];

const C_FIELDS: u8 = FORMS[7];

const L_FIELDS: u8 = FORMS[9];

// The code of a kind's letter.
pub fn letter_of(k: Kind) -> u8
    ensures { result ≡ letter (kind_view k) }
{
    match k {
        Kind::Type => T,
        Kind::Pattern => P,
        Kind::Iso => I,
        Kind::Clause => C,
        Kind::Let => L,
    }
}

// How many fields follow a kind's letter.
pub fn fields_of(k: Kind) -> u8
    ensures { result ≡ field_count (kind_view k) }
{
    match k {
        Kind::Type => T_FIELDS,
        Kind::Pattern => P_FIELDS,
        Kind::Iso => I_FIELDS,
        Kind::Clause => C_FIELDS,
        Kind::Let => L_FIELDS,
    }
}

// The kind whose letter has this code.
pub fn kind_of(b: u8) -> Option<Kind>
    ensures { as_letter result ≡ kind_of b }
{
    match b {
        T => Some(Kind::Type),
        P => Some(Kind::Pattern),
        I => Some(Kind::Iso),
        C => Some(Kind::Clause),
        L => Some(Kind::Let),
        _ => None,
    }
}
