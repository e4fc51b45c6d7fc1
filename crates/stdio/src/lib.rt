// Standard input and output for programs that never answer for what they have not read: the end of the
// input and a read that failed are two things, and standard error says what failed.
#![tactic(auto)]

ghost use Rattle.std.specs.Prelude.{◌≡◌, ◌≤◌, length, true, is_ok, None, Some};
ghost use Rattle.std.proofs.Common.{Break};
ghost use Rattle.stdio.specs.Reading.{is_interrupt, was_interrupt, answer_of, signal_of, input_of, Within, Room, step_of, Stays, Fits};

use area_parts::front;
use std::io;
use std::io::Read;
use std::ops::ControlFlow;

// The number of the error of a call that a signal interrupted.
const EINTR: i32 = 4;

// What a read gave: so many bytes, nothing yet where a signal came first, the end of the input, or
// nothing, since it failed.
#[derive(Clone, Copy)]
pub enum Input {
    Bytes(usize),
    Again,
    End,
    Failed,
}

// Whether a signal interrupted a call that failed, by its error's number.
fn interrupted(error: i32) -> bool
    ensures { result ≡ is_interrupt error }
{
    error == EINTR
}

// Whether a signal interrupted a call that failed, by its error. One without a number is none: its kind
// alone may say Interrupted, and then `was_interrupt` says no.
fn was_interrupted(error: &io::Error) -> bool
    ensures { result ≡ was_interrupt error.now }
{
    error
        .raw_os_error()
        .is_some_and(|number| interrupted(number))
}

// The system's words for what failed, without the error's number that std puts behind them.
fn words_alone(text: &str) -> &str {
    text.split_once(" (os error ")
        .map_or(text, |(words, _)| words)
}

// Writes a line to standard error: what failed, a colon and the system's words.
fn say_failed(rt: &HostRuntime, what: &str, error: io::Error) {
    let said = match error.to_string(rt.alloc()) {
        Ok(text) => {
            let words = words_alone(text.as_str());
            eprintln!(rt; "{what}: {words}")
        }
        Err(_) => eprintln!(rt; "{what}: {error}"),
    };
    let _ = said;
}

// What a read into an area gave, by its answer. A failure is said at once.
fn input_of(rt: &HostRuntime, got: io::Result<usize>, area: &[u8]) -> Input
    ensures { (result ≡ input_of (answer_of got) (signal_of got) (length area.now))
        × Within (length area.now) result }
{
    match got {
        Ok(0) => Input::End,
        Ok(n) => Input::Bytes(n.min(area.len())),
        Err(error) => {
            if was_interrupted(&error) {
                return Input::Again;
            }
            say_failed(rt, "cannot read standard input", error);
            Input::Failed
        }
    }
}

// Reads once into an area.
pub fn read_some(rt: &HostRuntime, area: &mut [u8]) -> Input
    ensures { Within (length area.new) result }
{
    let got = rt.stdin().read(area);
    input_of(rt, got, area)
}

// Says that a loop over the input, which has to end, has used up its turns: no run does. What came of
// reading is then a failure.
pub fn endless(rt: &HostRuntime) -> Option<usize>
    ensures { result ≡ None }
{
    let _ = eprintln!(rt; "standard input does not end");
    None
}

// What a read behind the first `done` bytes of an area comes to, by what it gave: so many bytes in all,
// or the end of reading, with their number unless the read failed.
fn step_of(i: Input, done: usize) -> ControlFlow<Option<usize>, usize>
    requires { Room done i }
    ensures { result ≡ step_of done i }
{
    match i {
        Input::Bytes(n) => ControlFlow::Continue(done + n),
        Input::Again => ControlFlow::Continue(done),
        Input::End => ControlFlow::Break(Some(done)),
        Input::Failed => ControlFlow::Break(None),
    }
}

// One read more behind the first `done` bytes of an area, unless it is full.
fn read_more(rt: &HostRuntime, area: &mut [u8], done: usize) -> ControlFlow<Option<usize>, usize>
    requires { done ≤ length area.old }
    ensures stays { Stays (length area.old) result }
    ensures value { length area.old ≤ done → result ≡ Break (Some done) }
{
    if done >= area.len() {
        return ControlFlow::Break(Some(done));
    }
    let i = read_some(rt, &mut area[done..]);
    step_of(i, done)
}

// Reads until an area is full or the input ends, and gives how many bytes came; none where a read failed.
pub fn read_area(rt: &HostRuntime, area: &mut [u8]) -> Option<usize>
    ensures { Fits (length area.new) result }
{
    let mut done: usize = 0;
    for _turn in 0..u64::MAX {
        let s = read_more(rt, area, done);
        match s {
            ControlFlow::Continue(n) => done = n,
            ControlFlow::Break(f) => return f,
        }
    }
    endless(rt)
}

// Answers what a write answered: whether all was written. Where it was not, standard error says why.
fn report_write(rt: &HostRuntime, written: io::Result<()>) -> bool
    ensures { result ≡ is_ok written }
{
    match written {
        Ok(()) => true,
        Err(error) => {
            say_failed(rt, "cannot write standard output", error);
            false
        }
    }
}

// Writes the first n bytes of an area, all of them where there are fewer. Answers whether all were
// written. What reaches standard output no contract can say; where there is nothing to write, nothing
// can fail.
pub fn write_front(rt: &HostRuntime, area: &[u8], n: usize) -> bool
    ensures { n ≡ 0 → result ≡ true }
{
    if n == 0 {
        return true;
    }
    report_write(rt, rt.write_all(front(area, n)))
}
