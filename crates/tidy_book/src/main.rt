// A book's plain form, for scripts. Reads the file book.txt and prints the plain form's
// lines; where the book is refused, one line: the refusal's number, three columns.
#![tactic(auto)]

use std::io;
use tidy::Untidied;

fn print_refusal(rt: &impl Print, why: Untidied) -> io::Result<()> {
    let columns = book::columns::of_number(why.number());
    rt.write_all(&columns)?;
    rt.write_all(b"\n")
}

fn print_tidy(rt: &impl Print, book: &[u8], out: &mut [u8]) -> io::Result<()> {
    match tidy::tidy(book, out) {
        Ok(length) => rt.write_all(&out[..usize::from(length)]),
        Err(why) => print_refusal(rt, why),
    }
}

fn main(rt: HostRuntime) -> io::Result<()> {
    let mut bytes = book_file::buffer();
    let mut out = book_file::buffer();
    let n = book_file::read_book(&rt, &mut bytes);
    print_tidy(&rt, &bytes[..n], &mut out[..n])
}
