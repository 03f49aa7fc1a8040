// Runs rows from standard input, each a call with its words, and writes every row again with the call's answer after it:
//
//     CALL WORD WORD .. -> ANSWER
//
// What a row has from its arrow on is not read, so for rows with the right answers standard output is standard input, byte for byte, and a
// row for trying a case by hand needs no arrow: echo 'read 35 :154' | try_calls. The head of the file stdin tells the calls and the words.
// Nothing is carried from one row to the next. An empty row and a row that begins with # are written as they are.
#![tactic(auto)]

mod all_rows;
mod boards;
mod bytes;
mod calls;
mod collects;
mod events;
mod follows;
mod frames;
mod listens;
mod numbers;
mod pieces;
mod puts;
mod replies;
mod restores;
mod say;
mod sets;
mod streams;
mod texts;
mod words;

use std::io;
use std::io::Read;

// The most bytes of input that are read.
const MOST_INPUT: usize = 65536;

fn main(rt: HostRuntime) -> io::Result<()> {
    let mut input = Vec::new(rt.alloc());
    let len = rt.reader().take(MOST_INPUT as u64).read_to_end(&mut input)?;
    all_rows::run(&rt, &input)?;
    if len == MOST_INPUT {
        rt.println("the input fills the buffer: what comes after this is not read")?;
    }
    Ok(())
}
