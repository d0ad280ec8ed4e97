// Whether a book meets the condition of mixed books, for scripts. Reads the file
// book.txt and prints one line, three columns a number: the refusal, the lines of an
// inductive and a coinductive step inside one group, and the goals of that group.
#![tactic(auto)]

ghost use Rattle.std.specs.Prelude.{◌≡◌, ◌%◌};
ghost use Rattle.definition.specs.Line.{columns};

use book::columns;
use std::io;

// The last three digits of a number in three columns; no line has a longer one.
fn last_columns(n: u64) -> [u8; 3]
    ensures { result ≡ columns (n % 1000) }
{
    columns::of_number((n % 1000) as u16)
}

fn print(rt: &impl Print, n: u64) -> io::Result<()> {
    rt.write_all(&last_columns(n))
}

fn print_goals(rt: &impl Print, group: u64) -> io::Result<()> {
    for goal in bits::places(group) {
        print(rt, goal as u64)?;
    }
    Ok(())
}

fn main(rt: HostRuntime) -> io::Result<()> {
    let mut bytes = book_file::buffer();
    let n = book_file::read_book(&rt, &mut bytes);
    let v = guarantee::guarantee(&bytes[..n]);
    let [inductive, coinductive, group] = v.numbers();
    print(&rt, u64::from(v.code() / 256))?;
    print(&rt, inductive)?;
    print(&rt, coinductive)?;
    print_goals(&rt, group)?;
    println!(rt;)
}
