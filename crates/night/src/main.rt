// The night box: reads a board's settings into a file, checks such a file, and puts it back on the board. What it decides, counts and writes
// is the work of proved libraries; here bytes are moved between the serial line, the files and the report.
//
//     night save LINE FILE      reads all settings and writes FILE once all were answered
//     night check FILE          says whether FILE is good, or what is wrong in it and where
//     night restore LINE FILE   puts FILE back, one Set at a time, and says done only for what the board confirmed
//     night plan LINE FILE      tells what a restore would set, and sets nothing
//     night show LINE           shows who the board is, and its five readings
//     night yard LIST           restores each trailer of LIST in turn
//     night yard LIST tsv       the same, with a table for machines on standard output and the report on standard error
//     night lines LIST          prints the name and the serial line of each trailer of LIST, for a script that sets the serial lines
//
// A row of LIST has a name, a serial line and a file, blanks or tabs between, and may end with serial= and the serial of its board; an empty
// row and one that begins with # are skipped.
//
// LINE is a serial device, or - for standard input and output; the report then goes to standard error.
#![tactic(auto)]

mod checks;
mod clock;
mod collecting;
mod disk;
mod ear;
mod file;
mod list;
mod names;
mod putback;
mod restoring;
mod said;
mod save;
mod serial;
mod show;
mod talk;
mod viewing;
mod whose;
mod words;
mod yard;

fn main(rt: HostRuntime) {
    let mut room = [0; words::MOST_COMMAND];
    let command = words::arg(rt, words::COMMAND, &mut room);
    match (command, ports::arg_count(rt)) {
        (b"save", 4) => save::run(rt),
        (b"check", 3) => checks::run(rt),
        (b"restore", 4) => putback::run(rt),
        (b"plan", 4) => putback::plan(rt),
        (b"show", 3) => show::run(rt),
        (b"yard", 3) => yard::run(rt),
        (b"yard", 4) => yard::run_table(rt),
        (b"lines", 3) => list::tell_lines(rt),
        _ => words::usage(rt),
    }
}
