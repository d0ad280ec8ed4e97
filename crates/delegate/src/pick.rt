// A pick among candidates. The usages of all but the first Yes are merged in the workspace,
// behind the graph, at the place of the top frame, which has index `height - 1`.
ghost use Rattle.std.specs.Prelude.{◌*◌, ◌≤◌, ◌<◌};
ghost use Rattle.std.proofs.Math.Option.{none};
ghost use Rattle.evaluation.specs.Workspace.{WorkBytes};
ghost use Rattle.evaluation.specs.Outcomes.{FewEntries};
ghost use Rattle.delegate.specs.Picks.{PickBegun, CandidateEntered, CandidateFinished, PickEnded};
ghost use Rattle.delegate.specs.Picks.{Tracked, MergedUnless};

use definition::answers::Answer;
use definition::replies::Refusal;
use evaluation::{Done, Outcome};
use layout::offsets;

// A pick so far: whether a Yes was met, the answers combined, and how many provisional
// entries there are. (`met` makes no Option of `combined`, which counts without a Yes.)
#[derive(Debug, Clone, Copy)]
pub struct Pick {
    pub met: bool,
    pub combined: Answer,
    pub entries: usize,
}

// Before the first candidate: nothing is merged.
pub fn begin(work: &mut [u8], goals: usize, height: usize, entries: usize) -> Pick
    requires { WorkBytes goals work.old × ((1 ≤ height) × (height ≤ goals)) }
    ensures { PickBegun goals height entries work.old work.new result }
{
    candidates::start(work, goals, height - 1);
    Pick {
        met: false,
        combined: Answer::No,
        entries,
    }
}

// enter_single_candidate: before each candidate.
pub fn enter_candidate(work: &mut [u8], goals: usize, height: usize)
    requires { WorkBytes goals work.old × ((1 ≤ height) × (height ≤ goals)) }
    ensures { CandidateEntered goals height work.old work.new }
{
    let n = offsets::graph_length(goals);
    candidates::enter_single_candidate(&mut work[0..n], goals, height - 1);
}

// finish_single_candidate, but for the usages that it hands back: they were merged.
fn untrack(work: &mut [u8], goals: usize, own: usize)
    requires { WorkBytes goals work.old × (own < goals) }
    ensures { Tracked goals own none work.old work.new }
{
    let n = offsets::graph_length(goals);
    candidates::finish_single_candidate(&mut work[0..n], goals, own);
}

// The usages of a candidate are merged, unless it is the first Yes.
fn merge_unless(first: bool, work: &mut [u8], goals: usize, own: usize)
    requires { WorkBytes goals work.old × (own < goals) }
    ensures { MergedUnless first goals own work.old work.new }
{
    if first {
        return;
    }
    candidates::merge(work, goals, own);
}

// After each candidate. A refusal of the candidate is the pick's, and leaves the workspace as it is.
pub fn finish_candidate(
    o: Outcome,
    pick: Pick,
    work: &mut [u8],
    goals: usize,
    height: usize,
) -> Result<Pick, Refusal>
    requires { WorkBytes goals work.old × ((1 ≤ height) × ((height ≤ goals) × FewEntries goals o)) }
    ensures { CandidateFinished goals height o pick work.old work.new result }
{
    let done = o?;
    let own = height - 1;
    let yes = done.answer == Answer::Yes;
    merge_unless(!pick.met & yes, work, goals, own);
    untrack(work, goals, own);
    let combined = pick.combined;
    Ok(Pick {
        met: pick.met | yes,
        combined: combined.combine(done.answer),
        entries: done.entries,
    })
}

// After all candidates. Where a Yes was met, what the other candidates used counts no more.
pub fn end(pick: Pick, work: &mut [u8], goals: usize, height: usize) -> Outcome
    requires work_bytes { WorkBytes goals work.old × ((1 ≤ height) × (height ≤ goals)) }
    requires entries_bound { pick.entries ≤ 2 * goals }
    ensures { PickEnded goals height pick work.old work.new result }
{
    let entries = pick.entries;
    if !pick.met {
        return Ok(Done {
            answer: pick.combined,
            entries,
        });
    }
    let own = height - 1;
    if !candidates::can_ignore(work, goals, own) {
        return Err(Refusal::Unreachable);
    }
    candidates::ignore(work, goals, own);
    Ok(Done {
        answer: Answer::Yes,
        entries,
    })
}
