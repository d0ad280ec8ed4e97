// A block of usages: those of a candidate, or merged ones. (`clear`, `mask` and `put` are those of
// `heads` over other records, a line or three each: a block generic over its records is no shorter.)
ghost use Rattle.std.specs.Prelude.{◌≡◌, true, ◌<◌, get_or, set};
ghost use Rattle.definition.specs.Usages.{no_usages};
ghost use Rattle.definition.specs.Candidates.{no_candidate_usages};
ghost use Rattle.layout.specs.Blocks.{UsagesBlock, flag_at, candidate_of};
ghost use Rattle.layout.specs.AtIndex.{Names, add_at, add_from_nested_at};

use crate::records;
use crate::used::Used;
use definition::usages::HeadUsages;

// The bytes of a record.
const USAGES: usize = 32;

pub fn clear(b: &mut [u8], goals: usize)
    requires { UsagesBlock goals b.old }
    ensures { candidate_of goals b.new ≡ no_candidate_usages goals }
{
    buffer::write_u64(b, 0, 0);
}

// The usages of index i.
pub fn usages(b: &[u8], goals: usize, i: usize) -> HeadUsages
    requires { UsagesBlock goals b.now × (i < goals) }
    ensures { result ≡ get_or (candidate_of goals b.now) i no_usages }
{
    if !bits::has(buffer::read_u64(b, 0), i) {
        return HeadUsages::none();
    }
    records::read_usages(&b[records::place(i, USAGES)])
}

// The usages of index i become u.
pub fn put(b: &mut [u8], goals: usize, i: usize, u: HeadUsages)
    requires { UsagesBlock goals b.old × (i < goals) }
    ensures { (candidate_of goals b.new ≡ set (candidate_of goals b.old) i u)
        × (flag_at b.new i ≡ true) }
{
    records::write_usages(&mut b[records::place(i, USAGES)], u);
    let m = buffer::read_u64(b, 0);
    buffer::write_u64(b, 0, bits::with(m, i));
}

// The indices that have usages.
pub fn mask(b: &[u8], goals: usize) -> u64
    requires { UsagesBlock goals b.now }
    ensures { Names goals result (candidate_of goals b.now) }
{
    bits::below(buffer::read_u64(b, 0), goals)
}

// The usages of index i, with u.
pub fn add(b: &mut [u8], goals: usize, i: usize, u: HeadUsages)
    requires { UsagesBlock goals b.old × (i < goals) }
    ensures { candidate_of goals b.new ≡ add_at i u (candidate_of goals b.old) }
{
    let before = usages(b, goals, i);
    put(b, goals, i, before.add_usages(u));
}

// Index i gets a record, of no usages, where it has none.
fn start(b: &mut [u8], goals: usize, i: usize)
    requires { UsagesBlock goals b.old × (i < goals) }
    ensures { (candidate_of goals b.new ≡ candidate_of goals b.old)
        × (flag_at b.new i ≡ true) }
{
    if bits::has(buffer::read_u64(b, 0), i) {
        return;
    }
    put(b, goals, i, HeadUsages::none());
}

// The usages of index i, with those of a nested goal: at most 1 of each kind.
pub fn add_from_nested<U: Used>(b: &mut [u8], goals: usize, i: usize, used: U)
    requires { UsagesBlock goals b.old × (i < goals) }
    ensures { candidate_of goals b.new
        ≡ add_from_nested_at (candidate_of goals b.old) i (U.uses used) }
{
    start(b, goals, i);
    used.count(&mut b[records::place(i, USAGES)]);
}
