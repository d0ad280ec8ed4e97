// Entry k, whose highest head p was popped, moved over to the heads of p. `rest` and k stay beside
// `p`: the bytes are written while p is read, and k is another one at each turn.
ghost use Rattle.std.specs.Prelude.{◌≡◌, ◌*◌, ◌<◌};
ghost use Rattle.definition.specs.Heads.{usages_at, paths_at};
ghost use Rattle.definition.specs.ProvisionalCache.{under_new_head, rebase_entry};
ghost use Rattle.buffer.specs.Regions.{region};
ghost use Rattle.layout.specs.Blocks.{heads_size};
ghost use Rattle.layout.specs.Entry.{entry_heads_start};
ghost use Rattle.layout.specs.Work.{entry_from};
ghost use Rattle.provisional_cache.specs.Entries.{EntriesBytes, entry_bytes_from};
ghost use Rattle.pop.specs.Popped.{RestBytes, popped_frame, PathsFrom, MayBeLeft};
ghost use Rattle.pop.specs.Heads.{gained_head, gained_entry, replaced_entry};
ghost use Rattle.pop.specs.Rebased.{EntryWritten, EntryRebased, entry_under_heads};

use crate::popped::Popped;
use crate::{popped, stays, table};
use definition::heads::CycleHead;
use definition::paths::PathsToNested;
use definition::usages::HeadUsages;
use layout::{heads, ranges};
use provisional_cache::entry;

// The block of its heads.
fn entry_heads<'a>(rest: &'a [u8], p: &Popped, k: usize) -> &'a [u8]
    requires { EntriesBytes p.now.goals p.now.base rest.now × (k < 2 * p.now.goals) }
    ensures { result.now ≡ region entry_heads_start (heads_size p.now.goals)
        (entry_bytes_from p.now.goals p.now.base k rest.now) }
{
    entry::heads(
        provisional_cache::entry_from(rest, p.goals, p.base, k),
        p.goals,
    )
}

// How it used p.
fn head_usages(rest: &[u8], p: &Popped, k: usize) -> HeadUsages
    requires { EntriesBytes p.now.goals p.now.base rest.now × (k < 2 * p.now.goals) }
    ensures { result ≡ usages_at (entry_from p.now.goals p.now.base k rest.now).heads p.now.index }
{
    heads::usages(entry_heads(rest, p, k), p.goals, p.index)
}

// The paths between it and p.
fn head_paths(rest: &[u8], p: &Popped, k: usize) -> PathsToNested
    requires { EntriesBytes p.now.goals p.now.base rest.now × (k < 2 * p.now.goals) }
    ensures { result.bits
        ≡ paths_at (entry_from p.now.goals p.now.base k rest.now).heads p.now.index }
{
    PathsToNested {
        bits: heads::paths(entry_heads(rest, p, k), p.goals, p.index),
    }
}

// ---- what it is after p

// What it gains for a head of p: the head as reached by the paths to p, or used for
// nothing.
fn gained(used: bool, eps: PathsToNested, head: CycleHead) -> CycleHead
    ensures { result ≡ gained_head used eps.bits head }
{
    if used {
        let phs = PathsToNested { bits: head.paths };
        let ephs = eps.extend_with_paths(phs, &table::EXTENDED);
        let paths = ephs.bits;
        let usages = head.usages;
        return CycleHead { paths, usages };
    }
    let empty = PathsToNested::empty_path();
    let paths = empty.bits;
    let usages = HeadUsages::none();
    CycleHead { paths, usages }
}

// It gains the heads of p.
fn gain_heads(rest: &mut [u8], p: &Popped, k: usize, used: bool, eps: PathsToNested)
    requires { RestBytes p.now.goals p.now.base rest.old × (k < 2 * p.now.goals) }
    ensures { EntryWritten p.now.goals p.now.base k
        (gained_entry p.now.goals p.now.base k used eps.bits rest.old) rest.old rest.new }
{
    let mask = popped::popped_mask(rest, p.goals);
    for i in bits::places(mask) {
        let head = gained(used, eps, popped::popped_head(rest, p.goals, i));
        let entry = &mut rest[ranges::entry_from(p.goals, p.base, k)];
        entry::join_head(entry, p.goals, i, head);
    }
}

// The heads of p take the place of p among its heads.
fn replace_head(rest: &mut [u8], p: &Popped, k: usize, used: bool, eps: PathsToNested)
    requires { RestBytes p.now.goals p.now.base rest.old × (k < 2 * p.now.goals) }
    ensures { EntryWritten p.now.goals p.now.base k
        (replaced_entry p.now.goals p.now.base p.now.index k used eps.bits rest.old)
        rest.old rest.new }
{
    let entry = &mut rest[ranges::entry_from(p.goals, p.base, k)];
    entry::remove_head(entry, p.goals, p.index);
    gain_heads(rest, p, k, used, eps);
}

// Its heads after p; false where it is dropped. Where it was given no result of p, it stays
// whatever p comes to, and depends on the heads of p without having used them.
fn rebase_heads(rest: &mut [u8], p: &Popped, k: usize) -> bool
    requires { RestBytes p.now.goals p.now.base rest.old × (k < 2 * p.now.goals) }
    ensures { EntryRebased p.now.goals p.now.base k
        (MayBeLeft p.now.goals p.now.index rest.old p.now.paths p.now.lowest)
        (entry_under_heads p.now.index p.now.reason) result rest.old rest.new }
{
    let usages = head_usages(rest, p, k);
    let eps = head_paths(rest, p, k);
    if usages.is_empty() {
        replace_head(rest, p, k, false, eps);
        return true;
    }
    if !stays::stays(rest, p, k, usages, eps) {
        return false;
    }
    replace_head(rest, p, k, true, eps);
    true
}

// Its path starts at its new highest head; false where it has no head.
fn rebase_path(rest: &mut [u8], p: &Popped, k: usize) -> bool
    requires { RestBytes p.now.goals p.now.base rest.old × (k < 2 * p.now.goals) }
    ensures { EntryRebased p.now.goals p.now.base k
        (λ s. PathsFrom s (popped_frame p.now.goals rest.old) p.now.paths)
        (λ s f e. under_new_head s f e e.heads) result rest.old rest.new }
{
    let hs = entry_heads(rest, p, k);
    if heads::is_empty(hs, p.goals) {
        return false;
    }
    let head = heads::highest(hs, p.goals);
    let path = p.paths[head];
    let entry = &mut rest[ranges::entry_from(p.goals, p.base, k)];
    entry::extend_path(entry, p.goals, path);
    true
}

// Entry k after p; false where it is dropped.
pub fn rebase_entry(rest: &mut [u8], p: &Popped, k: usize) -> bool
    requires { RestBytes p.now.goals p.now.base rest.old × (k < 2 * p.now.goals) }
    ensures { EntryRebased p.now.goals p.now.base k
        (MayBeLeft p.now.goals p.now.index rest.old p.now.paths p.now.lowest)
        (λ s f e. rebase_entry s f p.now.reason e) result rest.old rest.new }
{
    let entry = provisional_cache::entry_from(rest, p.goals, p.base, k);
    if entry::highest_head(entry, p.goals) != p.index {
        return true;
    }
    if !rebase_heads(rest, p, k) {
        return false;
    }
    rebase_path(rest, p, k)
}
