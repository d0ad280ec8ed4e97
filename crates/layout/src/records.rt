// Usages in 32 bytes, and a cycle head in 33.
ghost use Rattle.std.specs.Prelude.{◌≡◌, ◌+◌, ◌*◌, ◌<◌, ◌≤◌, length};
ghost use Rattle.std.proofs.Math.Option.{some};
ghost use Rattle.definition.specs.Usages.{add_usage, add_usages_from_nested};
ghost use Rattle.definition.specs.Heads.{join_head};
ghost use Rattle.layout.specs.Blocks.{usages_of, head_of};
ghost use Rattle.layout.specs.AtIndex.{used_if};

use crate::used::Used;
use definition::heads::CycleHead;
use definition::paths::PathKind;
use definition::usages;
use definition::usages::HeadUsages;
use std::ops::Range;

// Where the record of index i lies in a block of records of `size` bytes.
pub fn place(i: usize, size: usize) -> Range<usize>
    requires low { i < 64 }
    requires small { size ≤ 33 }
    ensures start { result.start ≡ 8 + i * size }
    ensures end { result.end ≡ 8 + i * size + size }
{
    let start = 8 + i * size;
    start..start + size
}

pub fn read_usages(b: &[u8]) -> HeadUsages
    requires { length b.now ≡ 32 }
    ensures { result ≡ usages_of b.now }
{
    HeadUsages {
        inductive: buffer::read_u64(b, 0),
        unknown: buffer::read_u64(b, 8),
        coinductive: buffer::read_u64(b, 16),
        forced: buffer::read_u64(b, 24),
    }
}

pub fn write_usages(b: &mut [u8], u: HeadUsages)
    requires { length b.old ≡ 32 }
    ensures { usages_of b.new ≡ u }
{
    buffer::write_u64(b, 0, u.inductive);
    buffer::write_u64(b, 8, u.unknown);
    buffer::write_u64(b, 16, u.coinductive);
    buffer::write_u64(b, 24, u.forced);
}

// One usage more, of a kind: its counter alone is read and written.
pub fn count_usage(b: &mut [u8], kind: PathKind)
    requires { length b.old ≡ 32 }
    ensures { usages_of b.new ≡ add_usage (usages_of b.old) kind }
{
    let at = 8 * usize::from(u8::from(kind));
    let before = buffer::read_u64(b, at);
    buffer::write_u64(b, at, usages::count_one(before));
}

// One usage more of a kind, where n is not 0.
fn count_if(b: &mut [u8], n: u64, kind: PathKind)
    requires { length b.old ≡ 32 }
    ensures { usages_of b.new ≡ used_if n (usages_of b.old) kind }
{
    if n != 0 {
        count_usage(b, kind);
    }
}

// The usages of a nested goal, at most 1 of each kind: whether it used the head counts,
// not how often. Counters are there so that the usages of a candidate can be ignored
// again, and a goal that is evaluated in it adds as much to the frame as to the candidate.
pub fn count_nested(b: &mut [u8], nested: HeadUsages)
    requires { length b.old ≡ 32 }
    ensures { usages_of b.new ≡ add_usages_from_nested (usages_of b.old) nested }
{
    count_if(b, nested.inductive, PathKind::Inductive);
    count_if(b, nested.unknown, PathKind::Unknown);
    count_if(b, nested.coinductive, PathKind::Coinductive);
    count_if(b, nested.forced, PathKind::ForcedAmbiguity);
}

pub fn read_head(b: &[u8]) -> CycleHead
    requires { length b.now ≡ 33 }
    ensures { result ≡ head_of b.now }
{
    CycleHead {
        paths: b[0],
        usages: read_usages(&b[1..33]),
    }
}

pub fn write_head(b: &mut [u8], head: CycleHead)
    requires { length b.old ≡ 33 }
    ensures { head_of b.new ≡ head }
{
    write_usages(&mut b[1..33], head.usages);
    b[0] = head.paths;
}

// The head, reached by more paths and used by a nested goal.
pub fn join_head<U: Used>(b: &mut [u8], paths: u8, used: U)
    requires { length b.old ≡ 33 }
    ensures { head_of b.new ≡ join_head (some (head_of b.old)) paths (U.uses used) }
{
    used.count(&mut b[1..33]);
    b[0] |= paths;
}
