// The parts of a book that was read.
ghost use Rattle.std.specs.Prelude.{◌≡◌, ◌≤◌, ◌<◌, length, get_or, drop};
ghost use Rattle.definition.specs.Paths.{kind_of};
ghost use Rattle.book.specs.Lines.{line_in};
ghost use Rattle.book.specs.Codes.{code_of, parts_below};
ghost use Rattle.book.specs.Parts.{StartsPart, Passed};
ghost use Rattle.book.specs.Calls.{call_of};

use crate::code::Code;
use crate::line;
use definition::paths::PathKind;

// A call line.
#[derive(Debug, Clone, Copy, PartialEq, Eq)]
pub struct Call {
    pub goal: usize,
    pub step: PathKind,
    pub lower: bool,
}

// The book from a goal's part on.
pub fn of_goal<'a>(book: &'a [u8], starts: &[u16], goal: usize) -> &'a [u8]
    requires { (goal < length starts.now) × (get_or starts.now goal 0 ≤ length book.now) }
    ensures { result.now ≡ drop (get_or starts.now goal 0) book.now }
{
    let at = usize::from(starts[goal]);
    &book[at..]
}

// What the code of the first line says.
#[tactic(auto, using(crate::proofs::Walk::part_line, crate::proofs::Walk::code_digit), unfolding(crate::specs::Lines::line_in))]
pub fn code(part: &[u8]) -> Code
    requires { StartsPart part.now }
    ensures { result ≡ code_of (line_in part.now).code }
{
    Code::from(line::digit_at(part, 0))
}

// How many parts stand below the first line of a group.
pub fn count(part: &[u8]) -> usize
    requires { StartsPart part.now }
    ensures { (result ≡ (line_in part.now).first) × (result < 65536) }
{
    usize::from(line::field_at(part, 3))
}

// How many parts stand below the first line.
fn below(part: &[u8]) -> usize
    requires { StartsPart part.now }
    ensures { (result ≡ parts_below (line_in part.now)) × (result < 65536) }
{
    if code(part).is_node() { count(part) } else { 0 }
}

// Passes over the part that the bytes start with, and hands back the rest. The count goes down by each line and up by
// each part below it, so that it is no range's.
pub fn next(part: &[u8]) -> &[u8]
    requires { StartsPart part.now }
    ensures { Passed part.now result.now }
{
    let mut t = part;
    let mut pending: usize = 1;
    while 0 < pending {
        pending = pending - 1 + below(t);
        t = &t[16..];
    }
    t
}

// The kind of a step, by its number; every number above 3 is read as 3.
pub fn kind(number: u16) -> PathKind
    ensures { result ≡ kind_of number }
{
    PathKind::from(number.min(3) as u8)
}

impl Call {
    // The call of the first line.
    #[tactic(auto, using(crate::proofs::Walk::part_line, crate::proofs::Walk::call_digits), unfolding(crate::specs::Lines::line_in))]
    pub fn first(part: &[u8]) -> Call
        requires { StartsPart part.now × (code_of (line_in part.now).code ≡ Code.Call) }
        ensures { result ≡ call_of (line_in part.now) }
    {
        let step = kind(line::digit_at(part, 6));
        Call {
            goal: usize::from(line::field_at(part, 3)),
            step,
            lower: line::digit_at(part, 9) == 1,
        }
    }
}
