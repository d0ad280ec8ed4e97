// A book: lines of 16 bytes, each of five fields of three columns and a newline. A
// header, then for each goal in order a line and its part.
#![tactic(auto)]

pub mod code;
pub mod columns;
mod grammar;
mod header;
pub mod line;
pub mod part;

ghost use Rattle.std.specs.Prelude.{◌≡◌, ◌≤◌, length, drop};
ghost use Rattle.definition.specs.Reader.{length_in_range, read_goals, read_book};
ghost use Rattle.book.specs.Lines.{lines_in};
ghost use Rattle.book.specs.Read.{header_read, StartedIf, whole_body, StartedBy};

use definition::format::Header;
use definition::replies::Refusal;

fn length_fits(n: usize) -> bool
    ensures { result ≡ length_in_range n }
{
    n % 16 == 0 && 48 <= n && n <= 16000
}

// Whether the goals follow the header in order, each with its part, and nothing else.
// `starts` takes the place of each goal's part.
fn read_body(book: &[u8], starts: &mut [u16], goals: usize) -> bool
    requires { (16 ≤ length book.now) × ((length book.now ≤ 16000) × (goals ≤ length starts.old)) }
    ensures { (result ≡ whole_body (read_goals goals 0 goals (lines_in (drop 16 book.now))))
        × StartedBy (read_goals goals 0 goals (lines_in (drop 16 book.now))) goals book.now
        starts.new }
{
    let mut at: usize = 16;
    for g in 0..goals {
        let Some(n) = grammar::goal_size(&book[at..], goals, g) else {
            return false;
        };
        starts[g] = (at + 16) as u16;
        at += n;
    }
    book.len() - at < 16
}

// The book's header, or refusal 1 to 4. `starts` takes the place of each goal's part.
pub fn read(book: &[u8], starts: &mut [u16]) -> Result<Header, Refusal>
    requires { length starts.old ≡ 64 }
    ensures { (result ≡ header_read (read_book book.now))
        × StartedIf (read_book book.now) book.now starts.new }
{
    if !length_fits(book.len()) {
        return Err(Refusal::BookLength);
    }
    if !line::all_fit(book) {
        return Err(Refusal::BookLine);
    }
    let l = line::first(book);
    if !header::in_range(l) {
        return Err(Refusal::BookHeader);
    }
    let h = header::of_line(l);
    let goals = h.goals;
    if !read_body(book, starts, goals) {
        return Err(Refusal::BookBody);
    }
    Ok(h)
}
