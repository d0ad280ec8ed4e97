// The question program: reads a book from the file book.txt and questions from standard
// input, and prints a line for each. Started with an argument (`ask passes`) it prints one
// number more: how often the goal's part was run for the answer.
#![tactic(auto)]

ghost use Rattle.std.specs.Prelude.{◌≡◌, Ok, List, ℕ};
ghost use Rattle.definition.specs.Line.{columns};
ghost use Rattle.definition.specs.Reader.{read_book};
ghost use Rattle.definition.specs.Query.{query};
ghost use Rattle.query.specs.Carried.{Carried};
ghost use Rattle.question.specs.Lines.{read_question};
ghost use Rattle.ask.specs.Program.{opened, replied, turned, turn, passes_asked, Lent, Ready};

use book::columns;
use definition::format::Header;
use question::{Ending, Question};
use std::env::{Env, FillError};
use std::io;
use std::io::Read;

const MOST_GOALS: usize = 16;

// ---- what is read, and what is printed for it

// The header of a book that the program answers questions over, or why it ends.
fn open(book: &[u8]) -> Result<Header, Ending>
    ensures { result ≡ opened (read_book book.now) }
{
    let mut starts = [0u16; 64];
    let h = book::read(book, &mut starts)?;
    if MOST_GOALS < h.goals {
        return Err(Ending::TooManyGoals);
    }
    Ok(h)
}

// The line for a question.
fn reply(book: &[u8], cache: &mut [u8], work: &mut [u8], q: Question) -> [u8; 13]
    ensures work_after { turned (Ok result) cache.new work.new
        ≡ replied q.goal q.depth (query book.now cache.old work.old q.goal q.depth) }
    ensures carried { Carried book.now cache.old
        → Carried book.now cache.new }
{
    let r = query::query(book, cache, work, usize::from(q.goal), usize::from(q.depth));
    question::reply_line(q.goal, q.depth, r)
}

// The line for a question line, after which the next is read, or why the program ends.
fn answer_line(
    book: &[u8],
    cache: &mut [u8],
    work: &mut [u8],
    line: &[u8],
) -> Result<[u8; 13], Ending>
    ensures work_after { turned result cache.new work.new
        ≡ turn book.now cache.old work.old line.now }
    ensures carried { Carried book.now cache.old
        → Carried book.now cache.new }
{
    let q = question::read_question(line).ok_or(Ending::QuestionLine)?;
    Ok(reply(book, cache, work, q))
}

// The line that is printed for what a question line came to.
fn printed(came: Result<[u8; 13], Ending>) -> [u8; 13]
    ensures { (cache work : List ℕ) → result ≡ (turned came cache work).line }
{
    came.unwrap_or_else(question::ending_line)
}

// Whether another question line is read after it.
fn goes_on(came: Result<[u8; 13], Ending>) -> bool
    ensures { (cache work : List ℕ) → result ≡ (turned came cache work).more }
{
    came.is_ok()
}

// How often the part of the goal that a question line asks was run for the answer, after it.
fn passes(book: &[u8], cache: &[u8], line: &[u8]) -> u8
    ensures { result ≡ passes_asked book.now cache.now (read_question line.now) }
{
    let Some(q) = question::read_question(line) else {
        return 0;
    };
    query::passes::of_answer(book, cache, usize::from(q.goal), usize::from(q.depth))
}

// ---- the program's input and output

// Whether the program was started with an argument.
fn has_argument(env: &impl Env) -> bool {
    !matches!(env.arg(1, &mut [0u8; 1]), Err(FillError::NotPresent))
}

// A number of passes in three columns.
fn passes_columns(n: u8) -> [u8; 3]
    ensures { result ≡ columns n }
{
    columns::of_number(u16::from(n))
}

// Prints a line, with the number of passes where that is asked for.
fn print(rt: &impl Print, line: [u8; 13], passes: Option<u8>) -> io::Result<()> {
    let Some(n) = passes else {
        return rt.write_all(&line);
    };
    rt.write_all(&line[..12])?;
    rt.write_all(&passes_columns(n))?;
    rt.write_all(b"\n")
}

// Reads a question line and prints its reply; false where no more is read. Cache and workspace are ready for the
// next question too where the reply cannot be printed.
fn ask_once(
    rt: &impl Print,
    input: &mut impl Read,
    book: &[u8],
    cache: &mut [u8],
    work: &mut [u8],
    shows: bool,
) -> io::Result<bool>
    requires { Ready book.now cache.old work.old }
    ensures { Ready book.now cache.new work.new }
{
    let mut line = [0u8; 7];
    let n = book_file::read_full(input, &mut line);
    if n == 0 {
        return Ok(false);
    }
    let line = &line[..n];
    let came = answer_line(book, cache, work, line);
    let passes = shows.then(|| passes(book, cache, line));
    print(rt, printed(came), passes)?;
    Ok(goes_on(came))
}

// Answers all questions over a book that was accepted, from a cache of zeros. A proved
// loop has to end, so it counts its turns, up to a number that no run comes to.
fn ask(
    rt: &impl Print,
    input: &mut impl Read,
    book: &[u8],
    cache: &mut [u8],
    work: &mut [u8],
    shows: bool,
) -> io::Result<()>
    requires { Lent book.now cache.old work.old }
{
    cache.fill(0);
    for _ in 0..u64::MAX {
        if !ask_once(rt, input, book, cache, work, shows)? {
            break;
        }
    }
    Ok(())
}

// Answers all questions, with a cache and a workspace for the book.
fn ask_book(
    rt: &impl Print,
    input: &mut impl Read,
    book: &[u8],
    h: Header,
    shows: bool,
) -> io::Result<()>
    requires { opened (read_book book.now) ≡ Ok h }
{
    let goals = h.goals;
    let mut caches = book_file::buffer();
    let mut works = book_file::buffer();
    let c = query::cache_length(goals, h.top);
    let w = query::work_length(goals);
    ask(rt, input, book, &mut caches[..c], &mut works[..w], shows)
}

fn main(rt: HostRuntime) -> io::Result<()> {
    let mut bytes = book_file::buffer();
    let n = book_file::read_book(&rt, &mut bytes);
    let book = &bytes[..n];
    let shows = has_argument(&rt);
    match open(book) {
        Ok(h) => ask_book(&rt, &mut rt.stdin(), book, h, shows),
        Err(e) => print(&rt, question::ending_line(e), shows.then_some(0)),
    }
}
