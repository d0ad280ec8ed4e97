// The grammar of a book's body.
ghost use Rattle.std.specs.Prelude.{◌≡◌, Bool, List, ◌≤◌, length};
ghost use Rattle.std.proofs.Math.Option.{Option};
ghost use Rattle.definition.specs.declared.format.Line.{Line};
ghost use Rattle.definition.specs.Reader.{TakenPart, uses_first, read_by_code, read_part, is_goal_line, read_goal};
ghost use Rattle.book.specs.Lines.{line_in, lines_in};
ghost use Rattle.book.specs.Grammar.{after_part, after_bytes, after_opened, Within, goal_fits, call_fits, undecided_fits, pick_fits};

use crate::code::Code;
use crate::line;

// What the first line of a part opens: so many parts that follow it, with whether they
// stand inside a pick.
#[derive(Debug, Clone, Copy, PartialEq, Eq)]
pub struct Opened {
    pub parts: u16,
    pub in_pick: bool,
}

// ---- one line

// Whether only the code and the first number are used.
#[tactic(auto, unfolding(crate::specs::Lines::line_in))]
fn uses_first(s: &[u8]) -> bool
    requires { 16 ≤ length s.now }
    ensures { result ≡ uses_first (line_in s.now) }
{
    line::is_zero_at(s, 6) && line::is_zero_at(s, 9) && line::is_zero_at(s, 12)
}

#[tactic(auto, unfolding(crate::specs::Lines::line_in))]
fn call_fits(s: &[u8], goals: usize) -> bool
    requires { 16 ≤ length s.now }
    ensures { result ≡ call_fits goals (line_in s.now) }
{
    usize::from(line::field_at(s, 3)) < goals
        && line::field_at(s, 6) <= 3
        && line::field_at(s, 9) <= 1
        && line::is_zero_at(s, 12)
}

#[tactic(auto, unfolding(crate::specs::Lines::line_in))]
fn undecided_fits(s: &[u8]) -> bool
    requires { 16 ≤ length s.now }
    ensures { result ≡ undecided_fits (line_in s.now) }
{
    line::is_zero_at(s, 3) && uses_first(s)
}

// A pick never stands inside a pick.
fn pick_fits(s: &[u8], in_pick: bool) -> bool
    requires { 16 ≤ length s.now }
    ensures { result ≡ pick_fits in_pick (line_in s.now) }
{
    !in_pick && uses_first(s)
}

// What a line opens, or nothing, where no part starts with it.
fn opened_by(s: &[u8], goals: usize, in_pick: bool) -> Option<Opened>
    requires { 16 ≤ length s.now }
    ensures { (inner : Bool → List Line → Option TakenPart) (ls : List Line)
        → after_opened result inner ls ≡ after_part
        (read_by_code goals (line_in s.now).code in_pick inner (line_in s.now) ls) }
{
    let number = line::field_at(s, 0);
    let code = Code::from(number);
    match code {
        Code::Call => call_fits(s, goals).then_some(Opened { parts: 0, in_pick }),
        Code::Group(_) => {
            let parts = line::field_at(s, 3);
            uses_first(s).then_some(Opened { parts, in_pick })
        }
        Code::Pick => {
            let parts = line::field_at(s, 3);
            pick_fits(s, in_pick).then_some(Opened {
                parts,
                in_pick: true,
            })
        }
        Code::Undecided => undecided_fits(s).then_some(Opened { parts: 0, in_pick }),
        Code::Goal | Code::Unknown => None,
    }
}

// ---- parts and goals

// How many bytes the part takes that s starts with, where it nests at most `nest` deep;
// none where s starts with no part.
fn part_size(s: &[u8], goals: usize, nest: u8, in_pick: bool) -> Option<usize>
    ensures { (after_bytes result s.now
        ≡ after_part (read_part goals nest in_pick (lines_in s.now))) × Within result s.now }
{
    if nest == 0 {
        return None;
    }
    if s.len() < 16 {
        return None;
    }
    let first = opened_by(s, goals, in_pick)?;
    let mut at: usize = 16;
    for _ in 0..first.parts {
        let n = part_size(&s[at..], goals, nest - 1, first.in_pick)?;
        at += n;
    }
    Some(at)
}

// Whether a goal's line has this goal's number.
#[tactic(auto, unfolding(crate::specs::Lines::line_in))]
fn goal_fits(s: &[u8], goal: usize) -> bool
    requires { 16 ≤ length s.now }
    ensures { result ≡ goal_fits goal (line_in s.now) }
{
    usize::from(line::field_at(s, 3)) == goal && uses_first(s)
}

fn is_goal_line(s: &[u8], goal: usize) -> bool
    requires { 16 ≤ length s.now }
    ensures { result ≡ is_goal_line goal (line_in s.now) }
{
    match Code::from(line::field_at(s, 0)) {
        Code::Goal => goal_fits(s, goal),
        _ => false,
    }
}

// How many bytes a goal's line and its part take that s starts with; none where s does
// not start with them.
pub fn goal_size(s: &[u8], goals: usize, goal: usize) -> Option<usize>
    ensures { (after_bytes result s.now ≡ after_part (read_goal goals goal (lines_in s.now)))
        × Within result s.now }
{
    if s.len() < 16 {
        return None;
    }
    if !is_goal_line(s, goal) {
        return None;
    }
    let n = part_size(&s[16..], goals, 8, false)?;
    Some(16 + n)
}
