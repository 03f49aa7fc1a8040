use crate::calls;
use std::io;

// What is between a row's words and its answer.
const ARROW: [u8; 3] = *b" ->";

// Answers every row, up to its newline.
pub fn run(rt: &impl Print, input: &[u8]) -> io::Result<()> {
    for line in input.split_inclusive(|char| *char == b'\n') {
        obeys(rt, line.strip_suffix(b"\n").unwrap_or(line))?;
    }
    Ok(())
}

// Writes a row as it is, up to its arrow, and then the answer. A row that is empty or begins with a number sign has none.
fn obeys(rt: &impl Print, line: &[u8]) -> io::Result<()> {
    if line.is_empty() || line.starts_with(b"#") {
        rt.write_all(line)?;
        return rt.println("");
    }
    let row = without_answer(line);
    rt.write_all(row)?;
    rt.write_all(&ARROW)?;
    calls::obey(rt, row)?;
    rt.println("")
}

// Returns a row without its arrow and what comes after it.
fn without_answer(line: &[u8]) -> &[u8] {
    let arrow = line
        .windows(ARROW.len())
        .position(|chars| chars == ARROW.as_slice());
    &line[..arrow.unwrap_or(line.len())]
}
