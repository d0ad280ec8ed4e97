// A block of cycle heads.
ghost use Rattle.std.specs.Prelude.{◌≡◌, false, ◌++◌, ◌+◌, ◌-◌, ◌*◌, ◌≤◌, ◌<◌, length, get_or, set, replicate};
ghost use Rattle.std.proofs.Math.Option.{some};
ghost use Rattle.bits.specs.Masks.{flags};
ghost use Rattle.buffer.specs.Regions.{region};
ghost use Rattle.definition.specs.Heads.{no_heads, heads_empty, highest_index, usages_at, paths_at, remove_head, insert_head};
ghost use Rattle.layout.specs.Blocks.{HeadsBlock, head_of, heads_of, present};
ghost use Rattle.layout.specs.Copied.{BlocksApart, RecordCopied, HeadsCopied};
ghost use Rattle.layout.specs.AtIndex.{ignore_at};

use crate::records;
use crate::used::Used;
use definition::heads::CycleHead;
use definition::usages::HeadUsages;

// The bytes of a record.
const HEAD: usize = 33;

// The indices that have a head.
pub fn mask(b: &[u8], goals: usize) -> u64
    requires { HeadsBlock goals b.now }
    ensures { flags 64 result ≡ present (heads_of goals b.now) ++ replicate (64 - goals) false }
{
    bits::below(buffer::read_u64(b, 0), goals)
}

pub fn clear(b: &mut [u8], goals: usize)
    requires { HeadsBlock goals b.old }
    ensures { heads_of goals b.new ≡ no_heads goals }
{
    buffer::write_u64(b, 0, 0);
}

// The record of index i; it means something where there is a head.
pub fn record(b: &[u8], goals: usize, i: usize) -> CycleHead
    requires { HeadsBlock goals b.now × (i < goals) }
    ensures { result ≡ head_of (region (8 + i * 33) 33 b.now) }
{
    records::read_head(&b[records::place(i, HEAD)])
}

// The head of index i becomes `head`.
pub fn put(b: &mut [u8], goals: usize, i: usize, head: CycleHead)
    requires { HeadsBlock goals b.old × (i < goals) }
    ensures { heads_of goals b.new ≡ set (heads_of goals b.old) i (some head) }
{
    records::write_head(&mut b[records::place(i, HEAD)], head);
    let m = buffer::read_u64(b, 0);
    buffer::write_u64(b, 0, bits::with(m, i));
}

pub fn remove(b: &mut [u8], goals: usize, i: usize)
    requires { HeadsBlock goals b.old × (i < goals) }
    ensures { heads_of goals b.new ≡ remove_head (heads_of goals b.old) i }
{
    let m = buffer::read_u64(b, 0);
    buffer::write_u64(b, 0, bits::without(m, i));
}

// Does index i have a head?
pub fn has(b: &[u8], goals: usize, i: usize) -> bool
    requires { HeadsBlock goals b.now × (i < goals) }
    ensures { result ≡ get_or (present (heads_of goals b.now)) i false }
{
    bits::has(buffer::read_u64(b, 0), i)
}

// CycleHeads::insert; of a head that is known, only what changes is written
pub fn insert<U: Used>(b: &mut [u8], goals: usize, i: usize, paths: u8, used: U)
    requires { HeadsBlock goals b.old × (i < goals) }
    ensures { heads_of goals b.new
        ≡ insert_head (heads_of goals b.old) i paths (U.uses used) }
{
    if has(b, goals, i) {
        records::join_head(&mut b[records::place(i, HEAD)], paths, used);
        return;
    }
    let usages = used.usages();
    put(b, goals, i, CycleHead { paths, usages });
}

// How the head of index i is used; not at all where there is none, as the definition says it.
pub fn usages(b: &[u8], goals: usize, i: usize) -> HeadUsages
    requires { HeadsBlock goals b.now × (i < goals) }
    ensures { result ≡ usages_at (heads_of goals b.now) i }
{
    if has(b, goals, i) {
        return record(b, goals, i).usages;
    }
    HeadUsages::none()
}

// The paths to the head of index i; none where there is none.
pub fn paths(b: &[u8], goals: usize, i: usize) -> u8
    requires { HeadsBlock goals b.now × (i < goals) }
    ensures { result ≡ paths_at (heads_of goals b.now) i }
{
    if has(b, goals, i) {
        return record(b, goals, i).paths;
    }
    0
}

// The highest index that has a head, 0 where none has.
pub fn highest(b: &[u8], goals: usize) -> usize
    requires { HeadsBlock goals b.now }
    ensures { result ≡ highest_index (heads_of goals b.now) }
{
    bits::highest(mask(b, goals))
}

pub fn is_empty(b: &[u8], goals: usize) -> bool
    requires { HeadsBlock goals b.now }
    ensures { result ≡ heads_empty (heads_of goals b.now) }
{
    mask(b, goals) == 0
}

// The usages u are taken from the head at index i, if there is one.
pub fn ignore(b: &mut [u8], goals: usize, i: usize, u: HeadUsages)
    requires { HeadsBlock goals b.old × (i < goals) }
    ensures { heads_of goals b.new ≡ ignore_at i u (heads_of goals b.old) }
{
    if !has(b, goals, i) {
        return;
    }
    let head = record(b, goals, i);
    let usages = head.usages.ignore_usages(u);
    put(b, goals, i, CycleHead { usages, ..head });
}

// The record at `from` goes to `to` as well.
fn copy_record(s: &mut [u8], from: usize, to: usize)
    requires { (from + 33 ≤ length s.old) × (to + 33 ≤ length s.old) }
    ensures { RecordCopied from to s.old s.new }
{
    let head = records::read_head(&s[from..from + HEAD]);
    records::write_head(&mut s[to..to + HEAD], head);
}

// The block at `from` goes to `to` as well: its mask, and the records that the mask names.
pub fn copy(s: &mut [u8], goals: usize, from: usize, to: usize)
    requires { BlocksApart goals from to s.old }
    ensures { HeadsCopied goals from to s.old s.new }
{
    let end = from + 8 + goals * 33;
    let m = mask(&s[from..end], goals);
    buffer::write_u64(s, to, m);
    for i in bits::places(m) {
        let a = 8 + i * 33;
        copy_record(s, from + a, to + a);
    }
}
