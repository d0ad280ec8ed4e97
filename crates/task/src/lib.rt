// The parts of evaluate_goal and evaluate_goal_in_task of mod.rs that evaluate no goal:
// the end of an iteration, and what follows a goal's last one.
#![tactic(auto)]

ghost use Rattle.std.specs.Prelude.{◌≡◌, ◌*◌, ◌≤◌};
ghost use Rattle.definition.specs.declared.answers.Answer.TheVariants as answers;
ghost use Rattle.definition.specs.declared.endings.Ending.TheVariants as endings;
ghost use Rattle.stack.specs.Bytes.{StackBytes};
ghost use Rattle.task.specs.Places.{IterationEnded, TaskEnded};
ghost use Rattle.task.specs.Iterations.{FramePopped, TurnTaken};
ghost use Rattle.task.specs.Results.{Finished};

use definition::answers::Answer;
use definition::endings::Ending;
use definition::format::Header;
use definition::paths::PathKind;
use definition::replies::Refusal;
use evaluation::{Evaluated, Outcome, TaskOutcome};
use stack::frame;

mod ending;
mod insert;

// After an iteration: what the goal came to, or another iteration, with whether overflow
// was met so far and how many provisional entries there are. Neither is an error or an absence.
#[derive(Debug, Clone, Copy, PartialEq, Eq)]
pub enum Iteration {
    End(Evaluated),
    Again(bool, usize),
}

// ---- the end of an iteration

// The frame on top is popped: the goal's outcome, or the frame on top again. In a rerun it keeps
// what is read only once its goal is done: its heads, nested goals and the depth reached. Its
// overflow and usages start afresh.
fn popped(
    graph: &mut [u8],
    goals: usize,
    height: usize,
    ending: Ending,
    entries: usize,
    overflow: bool,
    answer: Answer,
) -> Iteration
    requires { StackBytes goals height graph.old
        × ((1 ≤ height) × ((entries ≤ 2 * goals) × (ending ≡ endings.Overflow → answer ≡ answers.Overflow))) }
    ensures { FramePopped goals height ending entries overflow answer
        graph.old graph.new result }
{
    let kept = pop::pop(graph, goals, height, ending, entries);
    match ending {
        Ending::Rerun => {
            stack::reset_for_rerun(graph, goals, height - 1, answer);
            Iteration::Again(overflow, kept)
        }
        _ => Iteration::End(Evaluated {
            answer,
            overflow,
            entries: kept,
        }),
    }
}

// An iteration of the frame on top of the stack ended; `left` more are allowed. Past the step
// limit the goal's answer is an overflow. That an iteration met overflow counts for the goal,
// though the frame forgets it in a rerun. A refusal is the goal's.
pub fn end_iteration(
    o: Outcome,
    graph: &mut [u8],
    goals: usize,
    height: usize,
    left: usize,
    overflow: bool,
) -> Result<Iteration, Refusal>
    requires { IterationEnded goals height graph.old o }
    ensures { TurnTaken goals height left overflow o graph.old graph.new result }
{
    let done = o?;
    let f = stack::frame_at(graph, goals, height - 1);
    let met = overflow | frame::overflow(f, goals);
    let ending = ending::ending_of(f, goals, left, done.answer);
    let entries = done.entries;
    // Two calls, as one would be no function of its own in the machine code: it would stand inside
    // the cycle of calls, where a query takes more of the machine's stack (docs/DECISIONS.md, 51).
    match ending {
        Ending::Overflow => {
            let limit = Ending::Overflow;
            Ok(popped(graph, goals, height, limit, entries, met, Answer::Overflow))
        }
        _ => Ok(popped(graph, goals, height, ending, entries, met, done.answer)),
    }
}

// ---- after the last iteration; the goal's frame stood at index `height`

// The goal was evaluated: the parent is updated and the result kept. A refusal is handed on.
pub fn finish(
    o: TaskOutcome,
    cache: &mut [u8],
    graph: &mut [u8],
    h: Header,
    height: usize,
    goal: usize,
    step: PathKind,
    available: usize,
) -> Outcome
    requires { TaskEnded h height goal graph.old cache.old o }
    ensures { Finished h height goal step available o
        cache.old cache.new graph.old graph.new result }
{
    let ran = o?;
    let goals = h.goals;
    let required = frame::required_depth(stack::frame_at(graph, goals, height), goals);
    let reached = available.saturating_sub(required);
    parent::update_from_frame(graph, goals, height, step, ran.evaluated.overflow, reached);
    insert::result(cache, graph, h, height, goal, step, ran)
}
