// Which ending applies to a frame after an iteration: decided here, and nowhere else.
ghost use Rattle.std.specs.Prelude.{◌≡◌};
ghost use Rattle.definition.specs.Options.{maybe_of};
ghost use Rattle.definition.specs.Endings.{reached_fixpoint, run_again, without_fixpoint, ending_of_head, ending_of};
ghost use Rattle.layout.specs.Frame.{frame_of};
ghost use Rattle.stack.specs.Bytes.{FrameBytes};

use definition::answers::Answer;
use definition::endings::{Ending, Fixpoint};
use definition::usages::HeadUsages;
use stack::frame;

// The fixpoint that is reached, if one is. The answer is what the cycles were given: the
// provisional result or, in the first iteration, the initial result of a kind, where they were
// all of that kind.
fn reached_fixpoint(
    provisional: Option<Answer>,
    usages: HeadUsages,
    answer: Answer,
) -> Option<Fixpoint>
    ensures { maybe_of result ≡ reached_fixpoint (maybe_of provisional) usages answer }
{
    match provisional {
        Some(before) => {
            if before == answer {
                return Some(Fixpoint::Later);
            }
            None
        }
        None => {
            let kind = answer.initial_kind();
            if usages.is_single(kind) {
                return Some(Fixpoint::First(kind));
            }
            None
        }
    }
}

// A rerun, unless none is left.
fn run_again(left: usize) -> Ending
    ensures { result ≡ run_again left }
{
    if left == 0 {
        return Ending::Overflow;
    }
    Ending::Rerun
}

// Where no cycle used the frame, the answer leans on no provisional result. An ambiguous answer
// hardly becomes another in a rerun, which may cost much, and is never wrong.
fn without_fixpoint(left: usize, usages: HeadUsages, answer: Answer) -> Ending
    ensures { result ≡ without_fixpoint left usages answer }
{
    if usages.is_empty() {
        return Ending::NoUsages;
    }
    if answer.is_ambiguous() {
        return Ending::Ambiguity(answer);
    }
    run_again(left)
}

fn ending_of_head(
    left: usize,
    provisional: Option<Answer>,
    usages: HeadUsages,
    answer: Answer,
) -> Ending
    ensures { result ≡ ending_of_head left (maybe_of provisional) usages answer }
{
    match reached_fixpoint(provisional, usages, answer) {
        Some(fixpoint) => Ending::Fixpoint(fixpoint),
        None => without_fixpoint(left, usages, answer),
    }
}

// `left` reruns are allowed.
pub fn ending_of(f: &[u8], goals: usize, left: usize, answer: Answer) -> Ending
    requires { FrameBytes goals f.now }
    ensures { result ≡ ending_of left (frame_of goals f.now) answer }
{
    if !frame::is_head(f, goals) {
        return Ending::Nothing;
    }
    let provisional = frame::provisional_result(f, goals);
    ending_of_head(left, provisional, frame::own_usages(f, goals), answer)
}
