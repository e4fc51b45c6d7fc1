// How many lines some bytes have.
#![tactic(auto)]

ghost use Rattle.std.specs.Prelude.{◌≡◌, ◌-◌, ◌≤◌, ◌<◌, length};
ghost use Rattle.format.specs.Lines.{lines};
ghost use Rattle.read_split.specs.Feeds.{feed_of, feeds_in};

use area_cells::wide_byte;
use codes::LINE_FEED;

// So many bytes are counted at a time: their line feeds fit a byte, and a compiler can take many bytes at once.
const BLOCK: usize = 192;

// 1 for a line feed, 0 for another byte.
fn feed(b: u8) -> u8
    ensures { result ≡ feed_of b }
{
    u8::from(b == LINE_FEED)
}

// How many line feeds a block has.
fn block_feeds(s: &[u8]) -> u8
    requires { length s.now ≤ 192 }
    ensures { result ≡ feeds_in s.now }
{
    let mut n: u8 = 0;
    for b in s {
        n += feed(*b);
    }
    n
}

// How many line feeds there are, block by block.
fn count_feeds(s: &[u8]) -> usize
    ensures { result ≡ feeds_in s.now }
{
    let mut n: usize = 0;
    for block in s.chunks(BLOCK) {
        n += wide_byte(block_feeds(block));
    }
    n
}

// How many lines a file has; bytes after the last line feed are a line.
pub fn count_lines(s: &[u8]) -> usize
    ensures { result ≡ length (lines s.now) }
{
    let feeds = count_feeds(s);
    match s {
        [] | [.., LINE_FEED] => feeds,
        _ => feeds + 1,
    }
}
