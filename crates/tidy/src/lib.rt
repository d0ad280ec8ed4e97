// A book in its plain form: an all directly inside an all is spliced in, likewise any
// inside any, and an all or any of one part becomes that part, until no rule fits.
#![tactic(auto)]

mod line;
mod part;

ghost use Rattle.std.specs.Prelude.{◌≡◌, ◌≤◌, ◌<◌, length};
ghost use Rattle.tidy.specs.Reply.{untidied_number, replied, response_code, tidy};
ghost use Rattle.tidy.specs.Promises.{Promises};
ghost use Rattle.tidy.specs.declared.Untidied.TheVariants.{Unread};
ghost use Rattle.tidy.specs.Engine.{StartsGoal, WroteGoal, IsRead, WroteBook};

use crate::part::Sizes;
use definition::replies::Refusal;

// Why a book is not tidied.
#[derive(Debug, Clone, Copy, PartialEq, Eq)]
pub enum Untidied {
    // One of the refusals 1 to 4.
    Unread(Refusal),
    // Refusal 14: the output is not as long as the book.
    OutputLength,
}

impl From<Refusal> for Untidied {
    ghost from_gives = { λ refusal why. why ≡ Unread refusal };

    fn from(refusal: Refusal) -> Untidied {
        Untidied::Unread(refusal)
    }
}

impl Untidied {
    // The refusal's number.
    pub fn number(self) -> u16
        ensures { result ≡ untidied_number self }
    {
        match self {
            Untidied::Unread(r) => u32::from(r) as u16,
            Untidied::OutputLength => 14,
        }
    }
}

// Length used + 65536 * refusal, as C has it: one of them is 0.
pub fn code(response: Result<u16, Untidied>) -> u32
    ensures { result ≡ response_code response }
{
    match response {
        Ok(length) => u32::from(length),
        Err(why) => 65536 * u32::from(why.number()),
    }
}

// Writes a goal's line, and its part in its plain form.
fn write_goal(body: &[u8], out: &mut [u8], goal: u16) -> Sizes
    requires { StartsGoal goal body.now × ((length body.now ≤ length out.old) × (length body.now < 16000)) }
    ensures { WroteGoal goal body.now out.old out.new result }
{
    line::write_with(out, 1, goal);
    let s = part::write(&body[16..], &mut out[16..], 8);
    let read = s.read + 16;
    let wrote = s.wrote + 16;
    Sizes { read, wrote }
}

// Writes a book that was read; how many bytes its plain form takes.
fn write_book(book: &[u8], out: &mut [u8], goals: usize) -> usize
    requires { IsRead book.now goals × (length out.old ≡ length book.now) }
    ensures { WroteBook book.now out.old out.new result }
{
    line::write(out, book::line::first(book));
    let mut read: usize = 16;
    let mut wrote: usize = 16;
    for g in 0..goals {
        let s = write_goal(&book[read..], &mut out[wrote..], g as u16);
        read += s.read;
        wrote += s.wrote;
    }
    buffer::fill_zero(&mut out[wrote..]);
    wrote
}

// Writes a book that was read, where the output is as long as it.
fn write_into(book: &[u8], out: &mut [u8], goals: usize) -> Result<u16, Untidied>
    requires { IsRead book.now goals }
    ensures { replied result out.new ≡ tidy book.now out.old }
{
    if out.len() != book.len() {
        return Err(Untidied::OutputLength);
    }
    let n = write_book(book, out, goals);
    let length = n as u16;
    Ok(length)
}

// Writes the book's plain form to the output, and zeros behind it; a refusal leaves the
// output as it was.
pub fn tidy(book: &[u8], out: &mut [u8]) -> Result<u16, Untidied>
    ensures out_after { replied result out.new ≡ tidy book.now out.old }
    ensures promises { Promises book.now out.old (replied result out.new) }
{
    let mut starts = [0u16; 64];
    let h = book::read(book, &mut starts)?;
    write_into(book, out, h.goals)
}
