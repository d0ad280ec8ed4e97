// The file that the programs read a book from.
#![tactic(auto)]

ghost use Rattle.std.specs.Prelude.{◌≡◌, length};
ghost use Rattle.book_file.specs.Counts.{IsPrefixLen};

use std::fs::File;
use std::io::Read;
use std::rt::Files;

// How many bytes a program reads of a book at most: more than any book has that is accepted.
pub const ROOM: usize = 65536;

// Room for a book, or for another table of a program: zeros.
pub fn buffer() -> [u8; ROOM]
    ensures { length result ≡ ROOM }
{
    [0; ROOM]
}

// Reads the book and answers its length; a file that cannot be opened has none.
pub fn read_book(files: &impl Files, bytes: &mut [u8]) -> usize
    ensures { IsPrefixLen result bytes.new }
{
    let Ok(mut file) = File::open(files, "book.txt") else {
        return 0;
    };
    read_full(&mut file, bytes)
}

// Reads until the buffer is full, the input ends or a read fails, and answers how many bytes it put at the buffer's start.
// The library's `read_exact` does not tell how many those are where the input ends before the buffer is full.
pub fn read_full(input: &mut impl Read, bytes: &mut [u8]) -> usize
    ensures { IsPrefixLen result bytes.new }
{
    let mut done = 0;
    while done < bytes.len() {
        let Ok(n) = input.read(&mut bytes[done..]) else {
            break;
        };
        if n == 0 {
            break;
        }
        done += n;
    }
    done
}
