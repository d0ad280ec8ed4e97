// clear_dependent_provisional_results_for_rerun of mod.rs.
ghost use Rattle.std.specs.Prelude.{◌*◌, ◌≤◌, ◌<◌};
ghost use Rattle.stack.specs.Bytes.{GraphBytes};
ghost use Rattle.pop.specs.Kept.{Cleared};

use crate::keep;
use layout::offsets;
use provisional_cache::entry;

// How many entries are left. The frame at index `rerun` has a new provisional result, so that
// entries that were given the old one are wrong. An entry that only came by the frame, and used
// no result of it, is kept.
pub fn clear_for_rerun(graph: &mut [u8], goals: usize, rerun: usize, entries: usize) -> usize
    requires { GraphBytes goals graph.old × ((rerun < goals) × (entries ≤ 2 * goals)) }
    ensures { Cleared goals rerun entries graph.old graph.new result }
{
    let base = offsets::entries_start(goals);
    let mut kept: usize = 0;
    for i in 0..entries {
        let entry = provisional_cache::entry_from(graph, goals, base, i);
        let keep = entry::survives_rerun(entry, goals, rerun);
        kept = keep::keep_if(graph, goals, base, keep, i, kept);
    }
    kept
}
