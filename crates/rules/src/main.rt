// The desk program: reads a file and queries from standard input, and prints the answers as the bytes
// come. It never answers for what it has not read: where a read or a write fails, standard error says so,
// and nothing more is printed. All but the reading and writing is in `desk`.
#![tactic(auto)]

ghost use Rattle.std.specs.Prelude.{List, ℕ};
ghost use Rattle.query_lines.specs.Stream.{State};
ghost use Rattle.desk.specs.DeskSays.{DeskAt};
ghost use Rattle.rules.specs.Running.{Lent, Ready, TookAll, ChunkSays, InputSays, Reached};

use area_parts::{front, tail};
use desk::{Desk, FILE_ROOM, LINE_ROOM, feed, finished, opened, settled};
use limits::{TABLE_LENGTH, WORK_LENGTH};
use run_coding::AREA_LENGTH;
use stdio::{Input, endless, read_some, write_front};

// How far a run has come: the input goes on; or all was read that its answers depend on, and only what
// the end of the input gives is still to be printed; or a read or a write failed.
#[derive(Clone, Copy)]
enum Progress {
    More(Desk),
    Done(Desk),
    Failed,
}

// Whether the state behind a chunk wants more input.
fn behind(d: Desk) -> Progress
    ensures { (file line table index : List ℕ) (s : State) → DeskAt d file line table index s
        → TookAll s file line table index result }
{
    if settled(d) {
        return Progress::Done(d);
    }
    Progress::More(d)
}

// Feeds a chunk to the desk, all of it, and writes what it prints before it goes on.
fn answer_chunk(
    rt: &HostRuntime,
    d: Desk,
    chunk: &[u8],
    file: &mut [u8],
    line: &mut [u8],
    table: &mut [u16],
    work: &mut [u8],
    index: &mut [u16],
    out: &mut [u8],
) -> Progress
    requires { Ready d file.old line.old table.old work.old index.old out.old }
    ensures { ChunkSays d chunk.now file.old line.old table.old
        index.old file.new line.new table.new index.new result }
{
    let mut desk = d;
    let mut at: usize = 0;
    while at < chunk.len() {
        let f = feed(desk, tail(chunk, at), file, line, table, work, index, out);
        if !write_front(rt, out, f.written) {
            return Progress::Failed;
        }
        desk = f.desk;
        at += f.taken;
    }
    behind(desk)
}

// Answers what a read gave into a chunk.
fn answer_input(
    rt: &HostRuntime,
    d: Desk,
    i: Input,
    chunk: &[u8],
    file: &mut [u8],
    line: &mut [u8],
    table: &mut [u16],
    work: &mut [u8],
    index: &mut [u16],
    out: &mut [u8],
) -> Progress
    requires { Ready d file.old line.old table.old work.old index.old out.old }
    ensures { InputSays d i chunk.now file.old line.old table.old
        index.old file.new line.new table.new index.new result }
{
    match i {
        Input::Bytes(n) => answer_chunk(
            rt,
            d,
            front(chunk, n),
            file,
            line,
            table,
            work,
            index,
            out,
        ),
        Input::Again => Progress::More(d),
        Input::End => Progress::Done(d),
        Input::Failed => Progress::Failed,
    }
}

// Reads once and answers what came.
fn answer_some(
    rt: &HostRuntime,
    d: Desk,
    file: &mut [u8],
    line: &mut [u8],
    table: &mut [u16],
    work: &mut [u8],
    index: &mut [u16],
    out: &mut [u8],
) -> Progress
    requires { Ready d file.old line.old table.old work.old index.old out.old }
    ensures { Reached file.new line.new table.new work.new
        index.new out.new result }
{
    let mut chunk = [0u8; 4096];
    let i = read_some(rt, &mut chunk);
    answer_input(rt, d, i, &chunk, file, line, table, work, index, out)
}

// Writes what the end of the input gives.
fn answer_end(
    rt: &HostRuntime,
    d: Desk,
    file: &[u8],
    line: &[u8],
    table: &mut [u16],
    work: &mut [u8],
    index: &[u16],
    out: &mut [u8],
)
    requires { Ready d file.now line.now table.old work.old index.now out.old }
{
    let n = finished(d, file, line, table, work, index, out);
    write_front(rt, out, n);
}

// Answers the input up to where the rest of it can change nothing. A proved loop has to end, so it counts
// its turns up to a number that no run reaches.
fn answer_all(
    rt: &HostRuntime,
    file: &mut [u8],
    line: &mut [u8],
    table: &mut [u16],
    work: &mut [u8],
    index: &mut [u16],
    out: &mut [u8],
)
    requires { Lent file.old line.old table.old work.old index.old out.old }
{
    let mut desk = opened();
    for _turn in 0..u64::MAX {
        let p = answer_some(rt, desk, file, line, table, work, index, out);
        match p {
            Progress::More(d) => desk = d,
            Progress::Done(d) => {
                answer_end(rt, d, file, line, table, work, index, out);
                return;
            }
            Progress::Failed => return,
        }
    }
    endless(rt);
}

fn main(rt: HostRuntime) {
    let mut file = [0u8; FILE_ROOM];
    let mut line = [0u8; LINE_ROOM];
    let mut table = [0u16; TABLE_LENGTH];
    let mut work = [0u8; WORK_LENGTH];
    let mut index = [0u16; AREA_LENGTH];
    let mut out = [0u8; 8192];
    answer_all(
        &rt, &mut file, &mut line, &mut table, &mut work, &mut index, &mut out,
    );
}
