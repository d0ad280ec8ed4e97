// rebase_provisional_cache_entries of mod.rs: entries whose highest head p, the frame at index
// `popped`, leaves the stack.
//
// The result of such an entry leans on p, and p leaned on its heads. With p gone, the entry is
// kept as if p were evaluated again as a goal nested in it. So it takes over the heads of p:
// whoever uses it then depends on them, and its result goes to no global cache before they are
// settled.
//
// The paths to p, and what they allow of an entry that used p (`lowest`), do not depend on the
// entry. So they are worked out once, and the loop over the entries gets them as a `Popped`, and the
// graph's bytes from p on (`rest`: the entries start at `base` in it). No frame that is left on the
// stack is among these.
ghost use Rattle.std.specs.Prelude.{◌≡◌, ◌*◌, ◌≤◌, ◌<◌, unwrap_or};
ghost use Rattle.stack.specs.Bytes.{StackBytes};
ghost use Rattle.provisional_cache.specs.Entries.{EntriesBytes};
ghost use Rattle.pop.specs.Popped.{RestBytes};
ghost use Rattle.pop.specs.Rebased.{StayBefore, RestRebased, Rebased, reason_of};

use crate::popped::Popped;
use crate::{keep, moved, popped, stays};
use definition::answers::Answer;
use definition::endings::{Ending, RebaseReason};
use layout::offsets;
use provisional_cache::entry;

// The first of the entries whose highest head is p: those before it stay as they are, and all do
// where there is none.
fn first_under(
    bytes: &[u8],
    goals: usize,
    base: usize,
    popped: usize,
    entries: usize,
) -> Option<usize>
    requires { EntriesBytes goals base bytes.now × (entries ≤ 2 * goals) }
    ensures { StayBefore goals base popped entries bytes.now (unwrap_or result entries) }
{
    for k in 0..entries {
        let entry = provisional_cache::entry_from(bytes, goals, base, k);
        if entry::highest_head(entry, goals) == popped {
            return Some(k);
        }
    }
    None
}

// How many of the entries are left after p; those before `first` stay as they are.
fn rebase_entries(rest: &mut [u8], p: &Popped, first: usize, entries: usize) -> usize
    requires { RestBytes p.now.goals p.now.base rest.old
        × ((entries ≤ 2 * p.now.goals)
        × StayBefore p.now.goals p.now.base p.now.index entries rest.old first) }
    ensures { RestRebased p.now.goals p.now.base p.now.index p.now.paths p.now.lowest p.now.reason
        entries rest.old rest.new result }
{
    let mut kept = first;
    for k in first..entries {
        let keep = moved::rebase_entry(rest, p, k);
        kept = keep::keep_if(rest, p.goals, p.base, keep, k, kept);
    }
    kept
}

// Why an ending rebases. The two that do not are not asked.
fn reason_of(ending: Ending) -> RebaseReason
    ensures { result ≡ reason_of ending }
{
    match ending {
        Ending::Fixpoint(fixpoint) => RebaseReason::ReachedFixpoint(fixpoint),
        Ending::NoUsages => RebaseReason::NoCycleUsages,
        Ending::Ambiguity(kind) => RebaseReason::Ambiguity(kind),
        _ => RebaseReason::Ambiguity(Answer::Overflow),
    }
}

// How many entries are left after p. The reason is looked up only where an entry leans on p.
pub fn rebase_provisional_cache_entries(
    graph: &mut [u8],
    goals: usize,
    popped: usize,
    ending: Ending,
    entries: usize,
) -> usize
    requires { StackBytes goals popped graph.old × ((popped < goals) × (entries ≤ 2 * goals)) }
    ensures { Rebased goals popped (reason_of ending) entries graph.old graph.new result }
{
    let start = offsets::frame_start(goals, popped);
    let base = offsets::entries_start(goals) - start;
    let Some(first) = first_under(&graph[start..], goals, base, popped, entries) else {
        return entries;
    };
    let paths = popped::paths_to_popped(graph, goals, popped);
    let lowest = stays::lowest_cycle(&graph[start..], goals, &paths);
    let reason = reason_of(ending);
    let p = Popped {
        goals,
        base,
        index: popped,
        paths,
        lowest,
        reason,
    };
    rebase_entries(&mut graph[start..], &p, first, entries)
}
