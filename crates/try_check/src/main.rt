// Check over files that stand one after the other on standard input, each closed by a line `=`; prints
// `number,line` for each. Where a read or a write fails, standard error says so and nothing more is printed.
#![tactic(auto)]

ghost use Rattle.std.specs.Prelude.{◌≤◌, length};

use area_parts::front;
use checker::check;
use limits::{MAX_BYTES, TABLE_LENGTH, WORK_LENGTH};
use std::io;
use stdio::read_area;

// The place of the next byte `=`, or the end.
fn next_end(s: &[u8], from: usize) -> usize
    ensures { from ≤ length s.now → (from ≤ result) × (result ≤ length s.now) }
{
    let Some(n) = s.iter().skip(from).position(|b| *b == b'=') else {
        return s.len();
    };
    from + n
}

fn print_answer(rt: &HostRuntime, number: u8, line: usize) -> io::Result<()> {
    println!(rt; "{number},{line}")
}

// Checks one file in areas of its own, which hold sevens before the call.
fn check_one(rt: &HostRuntime, file: &[u8]) -> io::Result<()> {
    let mut table = [7u16; TABLE_LENGTH];
    let mut work = [7u8; WORK_LENGTH];
    let a = check(file, &mut table, &mut work);
    let f = a.refusal;
    print_answer(rt, format::number_of(f), a.place)
}

// Checks each file of the input.
fn check_each(rt: &HostRuntime, s: &[u8]) -> io::Result<()> {
    let mut at: usize = 0;
    while at < s.len() {
        let end = next_end(s, at);
        check_one(rt, &s[at..end])?;
        if s.len() - end < 2 {
            return Ok(());
        }
        at = end + 2;
    }
    Ok(())
}

fn main(rt: HostRuntime) -> io::Result<()> {
    let mut input = [0u8; MAX_BYTES];
    let Some(n) = read_area(&rt, &mut input) else {
        return Ok(());
    };
    check_each(&rt, front(&input, n))
}
