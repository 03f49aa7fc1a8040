use crate::events::Event;
use crate::puts::{self, Put};
use crate::words::{Answer, Words};
use crate::{restores, say};
use follow::{Followed, Follower, Standing};
use requests::Request;
use std::io;

// Answers `follow ITEM ..`: how far the restore is after each item, and at the end what the box says of it.
pub fn follow(rt: &impl Print, words: Words) -> Answer {
    Some(followed(rt, words.rest(is_item)?))
}

// Answers `anew ITEM ..`: the same, and at the end whether the trailer is begun anew.
pub fn anew(rt: &impl Print, words: Words) -> Answer {
    Some(begins_anew(rt, words.rest(is_item)?))
}

// Returns whether a word puts in a number or is an event.
fn is_item(word: &[u8]) -> bool {
    Put::is(word) || Event::is(word)
}

// Writes how far the restore is after each item, and what the box says at the end.
fn followed(rt: &impl Print, items: Words) -> io::Result<()> {
    let follower = at_the_end(rt, items)?;
    say::sentence(rt, sentences::followed(follower))
}

// Writes how far the restore is after each item, and whether the trailer is begun anew: where the board said nothing to its last Set, before
// the last round and in it; then where it said something, likewise.
fn begins_anew(rt: &impl Print, items: Words) -> io::Result<()> {
    let follower = at_the_end(rt, items)?;
    for answered in [false, true] {
        for last in [false, true] {
            rt.print(if tally::begins_anew(follower, answered, last) {
                " anew;"
            } else {
                " not-anew;"
            })?;
        }
    }
    Ok(())
}

// Starts from the two tables of the items, hands the follower the events among them, and returns it. The match
// stands in `collects` too, which says why.
fn at_the_end(rt: &impl Print, items: Words) -> io::Result<Follower> {
    let (from, to) = puts::tables_of(items);
    let mut follower = told(rt, Follower::start(from, to))?;
    for event in items.filter_map(Event::of) {
        let answer = match event {
            Event::Frame { command, data } => follower.reply(command, &data),
            Event::Refused => follower.refused_frame(),
            Event::Silence => follower.no_answer(),
        };
        follower = told(rt, answer)?;
    }
    Ok(follower)
}

// Writes an answer: how far the restore is, and how many Sets are confirmed. Returns the follower in it.
fn told(rt: &impl Print, answer: Followed) -> io::Result<Follower> {
    match answer.standing {
        Standing::Waiting(Request::Get(_)) => {}
        Standing::Waiting(Request::Set(wanted)) => {
            rt.print(" waiting")?;
            restores::wanted(rt, wanted)?;
        }
        Standing::Equal => rt.print(" equal")?,
        Standing::Done => rt.print(" done")?,
        Standing::Stopped(wanted) => {
            rt.print(" stopped")?;
            restores::wanted(rt, wanted)?;
        }
        Standing::Refused(refusal) => say::refused(rt, refusal)?,
    }
    print!(rt; " {};", answer.confirmed)?;
    Ok(answer.follower)
}
