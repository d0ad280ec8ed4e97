// A group of parts that asks for all of them, or for any. It leaves the workspace alone.
ghost use Rattle.std.specs.Prelude.{◌≡◌};
ghost use Rattle.definition.specs.Answers.{same_answer};
ghost use Rattle.delegate.specs.Groups.{GroupStarted, GroupWeighed, GroupClosed, unless_decided};

use book::code::Op;
use definition::answers::Answer;
use evaluation::{Done, Outcome};
use std::ops::ControlFlow;

// A group so far: the answers combined, and how many provisional entries there are.
#[derive(Debug, Clone, Copy, PartialEq, Eq)]
pub struct Group {
    pub op: Op,
    pub entries: usize,
    pub combined: Answer,
}

// After a part: what the group comes to, or the group for its next part.
pub type Weighed = ControlFlow<Outcome, Group>;

// Before the first part.
pub fn start(op: Op, entries: usize) -> Group
    ensures { GroupStarted op entries result }
{
    match op {
        Op::All => Group {
            op: Op::All,
            combined: Answer::Yes,
            entries,
        },
        Op::Any => Group {
            op: Op::Any,
            combined: Answer::No,
            entries,
        },
    }
}

// The group goes on, unless the answer decides it.
fn unless(op: Op, combined: Answer, deciding: Answer, answer: Answer, entries: usize) -> Weighed
    ensures { result ≡ unless_decided (same_answer answer deciding) op combined deciding answer entries }
{
    if answer == deciding {
        return ControlFlow::Break(Ok(Done {
            answer: deciding,
            entries,
        }));
    }
    ControlFlow::Continue(Group {
        op,
        combined: combined.combine(answer),
        entries,
    })
}

// After each part. A refusal of the part is the group's. (As a Result of a `Weighed`, for `?`, books
// of many groups take 1 % more instructions.)
pub fn weigh(o: Outcome, group: Group) -> Weighed
    ensures { GroupWeighed o group result }
{
    match o {
        Err(refusal) => ControlFlow::Break(Err(refusal)),
        Ok(done) => {
            let Done { answer, entries } = done;
            let combined = group.combined;
            match group.op {
                Op::All => unless(Op::All, combined, Answer::No, answer, entries),
                Op::Any => unless(Op::Any, combined, Answer::Yes, answer, entries),
            }
        }
    }
}

// After all parts.
pub fn close(group: Group) -> Done
    ensures { GroupClosed group result }
{
    Done {
        answer: group.combined,
        entries: group.entries,
    }
}
