// Replays the recorded queries of tests/vectors: the response, every byte of the cache
// and every byte of the workspace are compared with what was recorded. The file
// vectors.bin has them; tests/make-replay makes it and tells its form.
#![tactic(auto)]

ghost use Rattle.std.specs.Prelude.{◌≡◌, true, length};
ghost use Rattle.book_file.specs.Counts.{IsPrefixLen};
ghost use Rattle.replay.specs.Recorded.{WorkLeft, AsRecorded, with_book, with_query};

use book_file::read_full;
use definition::replies;
use std::fs::File;
use std::io;
use std::io::Read;

// How many books and queries were replayed, and how many replies differed.
#[derive(Debug, Default, Clone, Copy, PartialEq, Eq)]
struct Tally {
    books: u64,
    queries: u64,
    differences: u64,
}

// ---- comparing

// Whether the workspace is as a query leaves it that is refused by this number, or by
// none: as it was before after refusals 1 to 9, zeros otherwise.
fn work_is_left(refusal: u64, work: &[u8], before: &[u8]) -> bool
    ensures { result ≡ true → WorkLeft refusal work.now before.now }
{
    match refusal {
        1..=9 => work == before,
        _ => buffer::all_zero(work),
    }
}

// Whether a reply is as it was recorded.
fn as_recorded(
    code: u64,
    recorded: u64,
    cache: &[u8],
    after: &[u8],
    work: &[u8],
    before: &[u8],
) -> bool
    ensures { result ≡ true → AsRecorded code recorded cache.now after.now
        work.now before.now }
{
    code == recorded && cache == after && work_is_left(code / 256, work, before)
}

// ---- the file

// The next number: 8 bytes, the lowest first.
fn number(file: &mut impl Read) -> u64 {
    let mut bytes = [0u8; 8];
    read_full(file, &mut bytes);
    u64::from_le_bytes(bytes)
}

// The next bytes, whose length stands before them, at the start of a buffer; none where
// they do not fit.
fn bytes(file: &mut impl Read, buf: &mut [u8]) -> usize
    ensures { IsPrefixLen result buf.new }
{
    let n = number(file) as usize;
    if buf.len() < n {
        return 0;
    }
    read_full(file, &mut buf[..n])
}

// ---- replaying

const WORK_ROOM: usize = 1000000;

// Room for the largest workspace, filled with sevens.
fn sevens() -> [u8; WORK_ROOM]
    ensures { WORK_ROOM ≡ length result }
{
    [7; WORK_ROOM]
}

// Replays a query and says whether its reply is as it was recorded.
fn replay_query(file: &mut impl Read, book: &[u8], cache: &mut [u8], after: &mut [u8]) -> bool
    ensures { result ≡ true → cache.new ≡ after.new }
{
    let goal = number(file) as usize;
    let depth = number(file) as usize;
    let n = number(file) as usize;
    let recorded = number(file);
    bytes(file, after);
    if WORK_ROOM < n {
        return false;
    }
    let mut work = sevens();
    let before = work;
    let r = query::query(book, cache, &mut work[..n], goal, depth);
    as_recorded(
        u64::from(replies::code(r)),
        recorded,
        cache,
        after,
        &work[..n],
        &before[..n],
    )
}

impl Tally {
    fn count_query(&mut self, same: bool)
        ensures { self.new ≡ with_query same self.old }
    {
        self.queries = self.queries.wrapping_add(1);
        self.differences = self.differences.wrapping_add(u64::from(!same));
    }

    fn count_book(&mut self)
        ensures { self.new ≡ with_book self.old }
    {
        self.books = self.books.wrapping_add(1);
    }
}

// The name is bytes that nobody looked at, and need not be text.
fn say_difference(rt: &impl Print, name: &[u8], query: u64) -> io::Result<()> {
    rt.write_all(b"differs: ")?;
    rt.write_all(name)?;
    println!(rt; ", query {query}")
}

fn replay_queries(
    rt: &impl Print,
    file: &mut impl Read,
    name: &[u8],
    book: &[u8],
    cache: &mut [u8],
    after: &mut [u8],
    tally: &mut Tally,
) -> io::Result<()> {
    let n = number(file);
    for i in 0..n {
        let same = replay_query(file, book, cache, after);
        if !same {
            say_difference(rt, name, i + 1)?;
        }
        tally.count_query(same);
    }
    Ok(())
}

// Replays a book's queries, with the cache carried from each to the next.
fn replay_book(rt: &impl Print, file: &mut impl Read, tally: &mut Tally) -> io::Result<()> {
    let mut name = [0u8; 4096];
    let mut book = book_file::buffer();
    let mut cache = book_file::buffer();
    let mut after = book_file::buffer();
    let n = bytes(file, &mut name);
    let b = bytes(file, &mut book);
    let c = bytes(file, &mut cache);
    tally.count_book();
    replay_queries(
        rt,
        file,
        &name[..n],
        &book[..b],
        &mut cache[..c],
        &mut after[..c],
        tally,
    )
}

fn replay(rt: &impl Print, file: &mut impl Read, tally: &mut Tally) -> io::Result<()> {
    let books = number(file);
    for _ in 0..books {
        replay_book(rt, file, tally)?;
    }
    Ok(())
}

// A file that cannot be opened has no books.
fn main(rt: HostRuntime) -> io::Result<()> {
    let mut tally = Tally::default();
    if let Ok(mut file) = File::open(&rt, "vectors.bin") {
        replay(&rt, &mut file, &mut tally)?;
    }
    let Tally {
        books,
        queries,
        differences,
    } = tally;
    println!(rt; "replayed {books} books, {queries} queries, {differences} differences")
}
