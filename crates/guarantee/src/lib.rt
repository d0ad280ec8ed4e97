// Whether a book meets the condition of mixed books: each group of linked goals has no
// coinductive step inside, or no inductive one. If not, a group and two lines that
// break it.
#![tactic(auto)]

pub mod reach;
mod steps;

ghost use Rattle.std.specs.Prelude.{◌≡◌, ◌<◌};
ghost use Rattle.book.specs.Lines.{lines_in};
ghost use Rattle.book.specs.Read.{IsAccepted, book_in};
ghost use Rattle.soundness.specs.Groups.{step_lines};
ghost use Rattle.guarantee.specs.Guarantee.{conflict_with, first_conflict, guarantee_of};
ghost use Rattle.guarantee.specs.Codes.{verdict_code, verdict_numbers};
ghost use Rattle.guarantee.specs.Engine.{Ready, step_line};
ghost use Rattle.definition.specs.Options.{maybe_of};

use definition::paths::PathKind;
use definition::replies::{self, Refusal};
use steps::Step;

// An inductive and a coinductive step inside one group: their lines, the header being
// line 0, and the goals of the group, bit i for goal i.
#[derive(Debug, Clone, Copy, PartialEq, Eq)]
pub struct Conflict {
    pub inductive: usize,
    pub coinductive: usize,
    pub group: u64,
}

// Three cases, each with a name, and two methods for C: a `Result<Option<Conflict>, Refusal>` would
// say `Ok(None)` for the guarantee that is given.
#[derive(Debug, Clone, Copy, PartialEq, Eq)]
pub enum Verdict {
    Refused(Refusal),
    Given,
    Broken(Conflict),
}

impl Verdict {
    // 256 * refusal.
    pub fn code(self) -> u32
        ensures { result ≡ verdict_code self }
    {
        match self {
            Verdict::Refused(r) => replies::code(Err(r)),
            Verdict::Given => 0,
            Verdict::Broken(_) => 0,
        }
    }

    // The two lines and the group, zeros where nothing is broken.
    pub fn numbers(self) -> [u64; 3]
        ensures { result ≡ verdict_numbers self }
    {
        match self {
            Verdict::Refused(_) => [0, 0, 0],
            Verdict::Given => [0, 0, 0],
            Verdict::Broken(c) => [c.inductive as u64, c.coinductive as u64, c.group],
        }
    }
}

// The conflict of an inductive step inside its caller's group with the first
// coinductive step inside that group.
fn conflict_with(book: &[u8], reach: &[u64], s: Step) -> Option<Conflict>
    requires { Ready book.now reach.now }
    ensures { s.caller < (book_in book.now).header.goals
        → maybe_of result ≡ conflict_with (book_in book.now) (step_lines (lines_in book.now)) (step_line s) }
{
    let group = reach::group(reach, s.caller);
    if !s.is_within(group, PathKind::Inductive) {
        return None;
    }
    let other = steps::first_within(book, group, PathKind::Coinductive)?;
    Some(Conflict {
        inductive: s.line,
        coinductive: other,
        group,
    })
}

// The first step that is part of a conflict.
fn first_conflict(book: &[u8], reach: &[u64]) -> Verdict
    requires { Ready book.now reach.now }
    ensures { result ≡ first_conflict (book_in book.now) (step_lines (lines_in book.now))
        (step_lines (lines_in book.now)) }
{
    for s in steps::of_book(book) {
        if let Some(c) = conflict_with(book, reach, s) {
            return Verdict::Broken(c);
        }
    }
    Verdict::Given
}

// A book that was read.
fn of_book(book: &[u8], goals: usize) -> Verdict
    requires { IsAccepted book.now × ((book_in book.now).header.goals ≡ goals) }
    ensures { result ≡ guarantee_of book.now }
{
    let calls = reach::calls(book);
    let reach = reach::masks(&calls, goals);
    first_conflict(book, &reach)
}

pub fn guarantee(book: &[u8]) -> Verdict
    ensures { result ≡ guarantee_of book.now }
{
    let mut starts = [0u16; 64];
    let read = book::read(book, &mut starts);
    match read {
        Err(r) => Verdict::Refused(r),
        Ok(h) => of_book(book, h.goals),
    }
}
