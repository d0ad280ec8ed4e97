// A part in its plain form. The parts of a node are written one by one, each spliced in
// as soon as it stands there; the node's own line is written when its parts are known.
ghost use Rattle.std.specs.Prelude.{◌≡◌, ◌≤◌, ◌<◌, length};
ghost use Rattle.tidy.specs.Engine.{line_dropped, is_spliced, joined_if, dropped_if, is_only, headed_length, headed, StartsWithin, WrotePart};

use crate::line;
use book::code::Code;

// How many bytes what was read takes in the book, and what was written in the output.
#[derive(Debug, Clone, Copy, PartialEq, Eq)]
pub struct Sizes {
    pub read: usize,
    pub wrote: usize,
}

// Parts that stand in the output: how many, and their bytes.
#[derive(Debug, Clone, Copy, PartialEq, Eq)]
pub struct Joined {
    pub count: u16,
    pub bytes: usize,
}

// Takes the first line of n bytes away: the others move up.
fn drop_line(out: &mut [u8], n: usize)
    requires { (16 ≤ n) × (n ≤ length out.old) }
    ensures { out.new ≡ line_dropped n out.old }
{
    buffer::copy_within(out, 16, 0, n - 16);
}

// The part of n bytes that `out` starts with joins the parts of a node with this code:
// an all inside an all is spliced in, so that its line goes, likewise any inside any.
fn join(out: &mut [u8], n: usize, code: u16) -> Joined
    requires { (16 ≤ n) × (n ≤ length out.old) }
    ensures { (result ≡ joined_if (is_spliced code out.old) n out.old)
        × (out.new ≡ dropped_if (is_spliced code out.old) n out.old) }
{
    if !Code::from(code).is_group() {
        return Joined { count: 1, bytes: n };
    }
    if book::line::field_at(out, 0) != code {
        return Joined { count: 1, bytes: n };
    }
    let count = book::line::field_at(out, 3);
    drop_line(out, n);
    let bytes = n - 16;
    Joined { count, bytes }
}

// Whether a node with this code and so many parts becomes its part.
fn is_only(code: u16, count: u16) -> bool
    ensures { result ≡ is_only code count }
{
    Code::from(code).is_group() && count == 1
}

// Writes a node's line before its parts, with which it takes n bytes. An all or any of
// one part has no line. Says how many bytes there are then.
fn head(out: &mut [u8], n: usize, code: u16, count: u16) -> usize
    requires { (16 ≤ n) × (n ≤ length out.old) }
    ensures { (result ≡ headed_length (is_only code count) n)
        × (out.new ≡ headed (is_only code count) code count n out.old) }
{
    if is_only(code, count) {
        drop_line(out, n);
        return n - 16;
    }
    line::write_with(out, code, count);
    n
}

// Writes the plain form of the part that the bytes start with.
pub fn write(part: &[u8], out: &mut [u8], nest: u8) -> Sizes
    requires { StartsWithin nest part.now
        × ((length part.now ≤ length out.old) × (length part.now < 16000)) }
    ensures { WrotePart nest part.now out.old out.new result }
{
    let l = book::line::first(part);
    // stays a number: the node's own line is written with it, and others' lines are compared with it
    let code = l.code;
    if !Code::from(code).is_node() {
        line::write(out, l);
        return Sizes {
            read: 16,
            wrote: 16,
        };
    }
    let mut read: usize = 16;
    let mut wrote: usize = 16;
    let mut count: u16 = 0;
    for _ in 0..l.first {
        let s = write(&part[read..], &mut out[wrote..], nest - 1);
        let j = join(&mut out[wrote..], s.wrote, code);
        read += s.read;
        wrote += j.bytes;
        count += j.count;
    }
    let n = head(out, wrote, code, count);
    Sizes { read, wrote: n }
}
