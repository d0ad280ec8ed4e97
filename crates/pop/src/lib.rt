// Document 02's one operation: the top frame is taken off the stack, and what follows is done to the
// provisional entries. Nothing else takes a frame off, rebases entries or clears them.
#![tactic(auto)]

ghost use Rattle.std.specs.Prelude.{◌*◌, ◌≤◌};
ghost use Rattle.stack.specs.Bytes.{StackBytes};
ghost use Rattle.pop.specs.Endings.{FramePopped};

use definition::endings::Ending;

mod clear;
mod keep;
mod moved;
mod popped;
mod rebase;
mod stays;
mod table;

// How many of the entries are left. The bytes of the frame stay where they are, so that its fields
// can be read afterwards.
pub fn pop(graph: &mut [u8], goals: usize, height: usize, ending: Ending, entries: usize) -> usize
    requires { StackBytes goals height graph.old × ((1 ≤ height) × (entries ≤ 2 * goals)) }
    ensures { FramePopped goals height ending entries graph.old graph.new result }
{
    let popped = height - 1;
    match ending {
        Ending::Nothing => entries,
        Ending::Rerun => clear::clear_for_rerun(graph, goals, popped, entries),
        _ => rebase::rebase_provisional_cache_entries(graph, goals, popped, ending, entries),
    }
}
