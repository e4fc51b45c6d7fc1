// Turns the file on standard input; prints `number,line` and then the turned file. Where a read or a
// write fails, standard error says so and nothing more is printed.
#![tactic(auto)]

use area_cells::put_byte;
use area_parts::front;
use codes::{COMMA, LINE_FEED};
use limits::{MAX_BYTES, TABLE_LENGTH, WORK_LENGTH};
use print_text::put_number;
use stdio::{read_area, write_front};
use turner::turn;

// Prints `number,line`; whether that was done.
fn print_answer(rt: &HostRuntime, number: u8, line: usize) -> bool {
    let mut text = [0u8; 32];
    let comma = put_number(&mut text, 0, number as usize);
    let from = put_byte(&mut text, comma, COMMA);
    let feed = put_number(&mut text, from, line);
    let end = put_byte(&mut text, feed, LINE_FEED);
    write_front(rt, &text, end)
}

// Turns a file that was read whole, or as far as shows that it is too long.
fn print_turned(rt: &HostRuntime, file: &[u8]) {
    let mut table = [0u16; TABLE_LENGTH];
    let mut work = [0u8; WORK_LENGTH];
    let mut output = [0u8; MAX_BYTES + 1];
    let r = turn(file, &mut table, &mut work, &mut output);
    let a = r.answer;
    let f = a.refusal;
    if print_answer(rt, format::number_of(f), a.place) {
        write_front(rt, &output, r.length);
    }
}

fn main(rt: HostRuntime) {
    let mut input = [0u8; MAX_BYTES + 1];
    if let Some(n) = read_area(&rt, &mut input) {
        print_turned(&rt, front(&input, n));
    }
}
