// A board as a program, to try the box on: it reads a serial line and answers on it as the proved board does, and at the end of the input
// writes its settings as a backup text. It decides nothing itself. Where an argument is `-` or missing, it takes what is named last:
//
//     trailer LINE START END PRODUCT VERSION SERIAL
//
// LINE    a serial device; standard input and output
// START   a backup text that the board starts with; the factory table
// END     a file for the settings at the end; none is written
// PRODUCT, VERSION  four hex digits each; A381 and 4401
// SERIAL  0 to 32 characters; none
//
// It has no exit status of its own. Where the board does not start, or its settings at the end are not written, the last line on standard
// error begins with "trailer: not", which the launcher turns into one.
#![tactic(auto)]

mod end;
mod serve;
mod start;
mod words;

fn main(rt: HostRuntime) {
    if let Some(board) = start::board(rt) {
        serve::line(rt, board);
    }
}
