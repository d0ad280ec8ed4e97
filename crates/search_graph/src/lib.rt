// evaluate_goal, evaluate_goal_in_task and the delegate's compute_goal: three functions
// that call each other in a cycle. What stands between their calls is in other functions.
#![tactic(auto)]

pub mod between;

ghost use Rattle.std.specs.Prelude.{false, ◌-◌, ◌≤◌, ◌<◌};
ghost use Rattle.book.specs.Parts.{Reads};
ghost use Rattle.search_graph.specs.Calls.{Running, Comes, goal_from, TaskComes, task_from, part_from, kept_below};

use book::code::Code;
use book::part;
use book::part::Call;
use definition::answers::Answer;
use definition::format::Header;
use definition::paths::PathKind;
use definition::replies::Refusal;
use delegate::{group, pick};
use evaluation::{Done, Outcome, Ran, TaskOutcome};
use lookup::Found;
use std::ops::ControlFlow;
use task::Iteration;

// evaluate_goal, with `height` frames on the stack and `entries` provisional entries. The place
// of a goal that is on the stack is its frame's index; other places mean nothing.
#[cycle(evaluate_read_part_rerun)]
pub fn evaluate(
    book: &[u8],
    starts: &[u16],
    places: &mut [u8; 64],
    cache: &mut [u8],
    work: &mut [u8],
    h: Header,
    root: usize,
    height: usize,
    entries: usize,
    goal: usize,
    step: PathKind,
    lower: bool,
) -> Outcome
    requires running { Running book.now starts.now places.old cache.old work.old h root height entries }
    requires goal_lt_goals { goal < h.goals }
    ensures { Comes h.goals root height height
        (goal_from book.now h root height entries work.old cache.old goal step lower)
        work.old work.new cache.new places.new result }
{
    let found = between::look_up(
        cache, work, places, h, root, height, entries, goal, step, lower,
    );
    match found {
        Found::Known(answer) => Ok(Done { answer, entries }),
        Found::Push(available) => {
            let goals = h.goals;
            if goals <= height {
                return Err(Refusal::Unreachable);
            }
            between::push(work, goals, height, goal, step, available);
            places[goal] = height as u8;
            let p = part::of_goal(book, starts, goal);
            // one iteration is no rerun, and 0 iterations act as 1
            let left = h.limit.saturating_sub(1);
            let ran = rerun(
                book,
                starts,
                places,
                p,
                cache,
                work,
                h,
                root,
                height + 1,
                entries,
                left,
            );
            between::finish(ran, cache, work, h, height, goal, step, available)
        }
    }
}

// evaluate_goal_in_task: the iterations of the goal on top of the stack, of which `left`
// more than the first are allowed, and how many there were. A loop, so that iterations take
// no stack. A `for` over the iterations would be no plainer: it needs an answer for after the
// last one, which is never reached, since with none left an iteration ends the task.
#[cycle(evaluate_read_part_rerun)]
fn rerun(
    book: &[u8],
    starts: &[u16],
    places: &mut [u8; 64],
    p: &[u8],
    cache: &mut [u8],
    work: &mut [u8],
    h: Header,
    root: usize,
    height: usize,
    entries: usize,
    left: usize,
) -> TaskOutcome
    requires running { Running book.now starts.now places.old cache.old work.old h root height entries }
    requires le_height { (1 ≤ height) × ((left < 99) × Reads h.goals false p.now) }
    ensures { TaskComes h.goals root (height - 1)
        (task_from book.now p.now h root height entries left work.old cache.old)
        work.old work.new cache.new places.new result }
{
    let mut more = left;
    let mut overflow = false;
    let mut kept = entries;
    loop {
        let o = read_part(
            book, starts, places, p, cache, work, h, root, height, kept, false,
        );
        let next = between::end_iteration(o, work, h.goals, height, more, overflow)?;
        match next {
            Iteration::End(evaluated) => {
                let passes = left - more + 1;
                return Ok(Ran { evaluated, passes });
            }
            Iteration::Again(met, n) => {
                overflow = met;
                kept = n;
                more = more - 1;
            }
        }
    }
}

// compute_goal, of the part that `p` starts with. One function, as document 01 names it: with
// the parts below a group or a pick in functions of their own each goal on the stack would take
// more of the machine's stack, and the header would be copied once more on the way. A call, the
// commonest, is evaluated at once, below a group and below a pick alike.
#[cycle(evaluate_read_part_rerun)]
fn read_part(
    book: &[u8],
    starts: &[u16],
    places: &mut [u8; 64],
    p: &[u8],
    cache: &mut [u8],
    work: &mut [u8],
    h: Header,
    root: usize,
    height: usize,
    entries: usize,
    in_pick: bool,
) -> Outcome
    requires running { Running book.now starts.now places.old cache.old work.old h root height entries }
    requires le_height { (1 ≤ height) × Reads h.goals in_pick p.now }
    ensures { Comes h.goals root height (kept_below in_pick height)
        (part_from book.now p.now in_pick h root height entries work.old cache.old)
        work.old work.new cache.new places.new result }
{
    let code = part::code(p);
    match code {
        Code::Call => {
            let call = Call::first(p);
            let step = call.step;
            evaluate(
                book, starts, places, cache, work, h, root, height, entries, call.goal, step,
                call.lower,
            )
        }
        Code::Group(op) => {
            let mut group = group::start(op, entries);
            let mut t = &p[16..];
            for left in (0..part::count(p)).rev() {
                let below = part::code(t);
                let o = if let Code::Call = below {
                    let call = Call::first(t);
                    let step = call.step;
                    evaluate(
                        book,
                        starts,
                        places,
                        cache,
                        work,
                        h,
                        root,
                        height,
                        group.entries,
                        call.goal,
                        step,
                        call.lower,
                    )
                } else {
                    read_part(
                        book,
                        starts,
                        places,
                        t,
                        cache,
                        work,
                        h,
                        root,
                        height,
                        group.entries,
                        in_pick,
                    )
                };
                match group::weigh(o, group) {
                    ControlFlow::Break(outcome) => return outcome,
                    ControlFlow::Continue(next) => group = next,
                }
                if 0 < left {
                    let u = part::next(t);
                    t = u;
                }
            }
            Ok(group::close(group))
        }
        Code::Pick => {
            let mut pick = pick::begin(work, h.goals, height, entries);
            let mut rest = &p[16..];
            for untried in (0..part::count(p)).rev() {
                pick::enter_candidate(work, h.goals, height);
                let candidate = part::code(rest);
                let tried = if let Code::Call = candidate {
                    let asked = Call::first(rest);
                    let step = asked.step;
                    evaluate(
                        book,
                        starts,
                        places,
                        cache,
                        work,
                        h,
                        root,
                        height,
                        pick.entries,
                        asked.goal,
                        step,
                        asked.lower,
                    )
                } else {
                    read_part(
                        book,
                        starts,
                        places,
                        rest,
                        cache,
                        work,
                        h,
                        root,
                        height,
                        pick.entries,
                        true,
                    )
                };
                pick = pick::finish_candidate(tried, pick, work, h.goals, height)?;
                if 0 < untried {
                    let after = part::next(rest);
                    rest = after;
                }
            }
            pick::end(pick, work, h.goals, height)
        }
        _ => Ok(Done {
            answer: Answer::Undecided,
            entries,
        }),
    }
}
