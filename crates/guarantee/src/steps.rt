// The steps of a book, one by one.
ghost use Rattle.std.specs.Prelude.{◌≡◌, ◌≤◌, length};
ghost use Rattle.book.specs.Lines.{lines_in};
ghost use Rattle.soundness.specs.Groups.{step_lines};
ghost use Rattle.guarantee.specs.Guarantee.{step_within, first_step};
ghost use Rattle.guarantee.specs.Engine.{in_mask, steps_left, step_line, line_of};
ghost use Rattle.definition.specs.Options.{maybe_of};

use book::code::Code;
use book::{line, part};
use definition::paths::PathKind;

// A call line: its number, the header being line 0, the goal in whose part it stands, and what it says.
#[derive(Debug, Clone, Copy, PartialEq, Eq)]
pub struct Step {
    pub line: usize,
    pub caller: usize,
    pub goal: usize,
    pub kind: PathKind,
}

impl Step {
    // Whether it is of a kind, with both ends in the group.
    pub fn is_within(self, group: u64, kind: PathKind) -> bool
        ensures { result ≡ step_within (in_mask group) kind (step_line self) }
    {
        self.kind == kind && bits::has(group, self.caller) && bits::has(group, self.goal)
    }
}

// The steps of the lines that are left: from a line on, which stands in the part of a goal unless it is a goal's line.
#[derive(Debug, Drop)]
pub struct StepsLeft<'a> {
    book: &'a [u8],
    line: usize,
    caller: usize,
}

// The steps of a book.
pub fn of_book(book: &[u8]) -> StepsLeft<'_>
    requires { 16 ≤ length book.now }
    ensures { steps_left result ≡ step_lines (lines_in book.now) }
{
    StepsLeft {
        book,
        line: 1,
        caller: 0,
    }
}

impl Iterator for StepsLeft<'_> {
    ghost use Rattle.std.specs.Iterator.{YieldsFirstBy, item_count};
    ghost use Rattle.guarantee.specs.Engine.{steps_left, step_line};

    type Item = Step;

    ghost next_gives = { YieldsFirstBy step_line steps_left };

    ghost remaining = { item_count steps_left };

    // Passes over lines until one is a step: the line is the iterator's place, which no loop over a range would keep.
    fn next(&mut self) -> Option<Step> {
        while self.line < self.book.len() / 16 {
            let line = self.line;
            let l = line::first(&self.book[16 * line..]);
            let goal = usize::from(l.first);
            let caller = self.caller;
            self.line = line + 1;
            match Code::from(l.code) {
                Code::Goal => self.caller = goal,
                Code::Call => {
                    return Some(Step {
                        line,
                        caller,
                        goal,
                        kind: part::kind(l.second),
                    });
                }
                _ => {}
            }
        }
        None
    }
}

// The line of the first step of a kind with both ends in the group.
pub fn first_within(book: &[u8], group: u64, kind: PathKind) -> Option<usize>
    requires { 16 ≤ length book.now }
    ensures { maybe_of result
        ≡ line_of (first_step (step_within (in_mask group) kind) (step_lines (lines_in book.now))) }
{
    of_book(book)
        .find(|s| s.is_within(group, kind))
        .map(|s| s.line)
}
