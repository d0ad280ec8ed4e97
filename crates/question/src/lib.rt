// The lines that the question program reads and writes.
#![tactic(auto)]

ghost use Rattle.std.specs.Prelude.{◌≡◌, ◌+◌, ◌<◌, length};
ghost use Rattle.definition.specs.Answers.{refusal_number, response_answer, response_refusal};
ghost use Rattle.definition.specs.Line.{field_at};
ghost use Rattle.definition.specs.Options.{maybe_of};
ghost use Rattle.question.specs.Lines.{read_question, output_line, reply_line, ending_line};

use book::{columns, line};
use definition::replies::{Refusal, Response};

// A question line, read.
#[derive(Debug, Clone, Copy, PartialEq, Eq)]
pub struct Question {
    pub goal: u16,
    pub depth: u16,
}

// Why the program ends before its input does: refusals 1 to 4, 12 and 13.
#[derive(Debug, Clone, Copy, PartialEq, Eq)]
pub enum Ending {
    Book(Refusal),
    QuestionLine,
    TooManyGoals,
}

impl From<Refusal> for Ending {
    ghost use Rattle.question.specs.declared.Ending.TheVariants.{Book};

    ghost from_gives = { λ refusal ending. ending ≡ Book refusal };

    fn from(refusal: Refusal) -> Ending {
        Ending::Book(refusal)
    }
}

impl From<Ending> for u16 {
    ghost use Rattle.question.specs.Lines.{ending_number};

    ghost from_gives = { λ ending n. n ≡ ending_number ending };

    fn from(ending: Ending) -> u16 {
        match ending {
            Ending::Book(r) => table_number(r),
            Ending::QuestionLine => 12,
            Ending::TooManyGoals => 13,
        }
    }
}

// ---- reading

// The number that the field at a place says, where a field stands there.
fn field(s: &[u8], at: usize) -> Option<u16>
    requires { at + 2 < length s.now }
    ensures { maybe_of result ≡ field_at s.now at }
{
    let (x, y, z) = (s[at], s[at + 1], s[at + 2]);
    line::is_field(x, y, z).then(|| line::field(x, y, z))
}

// Goal and depth, three columns each as a book's fields, and a newline.
pub fn read_question(s: &[u8]) -> Option<Question>
    ensures { result ≡ read_question s.now }
{
    if s.len() != 7 || s[6] != b'\n' {
        return None;
    }
    let goal = field(s, 0)?;
    let depth = field(s, 3)?;
    Some(Question { goal, depth })
}

// ---- writing

// Four numbers, three columns each, and a newline.
fn output_line(goal: u16, depth: u16, answer: u16, refusal: u16) -> [u8; 13]
    ensures { result ≡ output_line goal depth answer refusal }
{
    let [a, b, c] = columns::of_number(goal);
    let [d, e, f] = columns::of_number(depth);
    let [g, h, i] = columns::of_number(answer);
    let [j, k, l] = columns::of_number(refusal);
    [a, b, c, d, e, f, g, h, i, j, k, l, b'\n']
}

// A refusal's number, which has at most three digits.
fn table_number(refusal: Refusal) -> u16
    ensures { result ≡ refusal_number refusal }
{
    u32::from(refusal) as u16
}

// The answer's number, 0 for a query that was refused: a line has no other word for it.
fn answer_number(r: Response) -> u16
    ensures { result ≡ response_answer r }
{
    match r {
        Ok(answer) => u16::from(u8::from(answer)),
        Err(_) => 0,
    }
}

// The refusal's number, 0 for a query that was accepted.
fn refusal_number(r: Response) -> u16
    ensures { result ≡ response_refusal r }
{
    match r {
        Ok(_) => 0,
        Err(refusal) => table_number(refusal),
    }
}

// The line for a question that was asked.
pub fn reply_line(goal: u16, depth: u16, r: Response) -> [u8; 13]
    ensures { result ≡ reply_line goal depth r }
{
    output_line(goal, depth, answer_number(r), refusal_number(r))
}

// The line with which the program ends before its input does.
pub fn ending_line(e: Ending) -> [u8; 13]
    ensures { result ≡ ending_line e }
{
    output_line(0, 0, 0, u16::from(e))
}
