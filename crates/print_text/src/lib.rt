// Numbers and rows as text in an output area.
#![tactic(auto)]

ghost use Rattle.std.specs.Prelude.{◌≡◌, ◌+◌, ◌%◌, ◌<◌};
ghost use Rattle.limits.specs.Limits.{numeral_bound, digit_zero};
ghost use Rattle.format.specs.Lines.{decimal, print_field, print};
ghost use Rattle.format.specs.Code.{row_view};
ghost use Rattle.area_cells.specs.Areas.{Prints};

use area_cells::put_byte;
use codes::{COMMA, DIGIT_ZERO, LINE_FEED};
use format::Row;
use read_forms::{fields_of, letter_of};

// The code of a number's last digit.
fn digit(n: usize) -> u8
    ensures { result ≡ digit_zero + n % 10 }
{
    (DIGIT_ZERO as usize + n % 10) as u8
}

// The digits of a number.
pub fn put_number(out: &mut [u8], at: usize, n: usize) -> usize
    ensures { n < numeral_bound → Prints out.old out.new at result (decimal n) }
{
    if n < 10 {
        return put_byte(out, at, digit(n));
    }
    let next = put_number(out, at, n / 10);
    put_byte(out, next, digit(n))
}

// A comma and a number.
pub fn put_field(out: &mut [u8], at: usize, n: usize) -> usize
    ensures { n < numeral_bound → Prints out.old out.new at result (print_field n) }
{
    let next = put_byte(out, at, COMMA);
    put_number(out, next, n)
}

// A row as a line of the file.
pub fn put_row(out: &mut [u8], at: usize, r: Row) -> usize
    ensures { r.x < numeral_bound → r.y < numeral_bound → r.z < numeral_bound
        → Prints out.old out.new at result (print (row_view r)) }
{
    let k = r.kind;
    let x = put_byte(out, at, letter_of(k));
    let y = put_field(out, x, r.x);
    let z = put_field(out, y, r.y);
    if fields_of(k) == 2 {
        return put_byte(out, z, LINE_FEED);
    }
    let end = put_field(out, z, r.z);
    put_byte(out, end, LINE_FEED)
}
