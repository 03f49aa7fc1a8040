// The calls by their names.
use crate::words::{self, Answer};
use crate::{boards, collects, follows, frames, listens, replies, restores, sets, streams, texts};
use std::io;

// Answers a row's call, or writes a question mark for a row that is none.
pub fn obey(rt: &impl Print, row: &[u8]) -> io::Result<()> {
    match answer(rt, row) {
        Some(written) => written,
        None => rt.print(" ?"),
    }
}

// Answers the call that a row's first word names, if its other words are right for it. No enum stands between the two: a variant would be made
// here and taken apart at once.
fn answer(rt: &impl Print, row: &[u8]) -> Answer {
    let (name, words) = words::first_of(row);
    match name {
        b"read" => frames::read(rt, words),
        b"write" => frames::write(rt, words),
        b"get" => frames::get(rt, words),
        b"set" => frames::set(rt, words),
        b"hear" => streams::hear(rt, words),
        b"hold" => streams::hold(rt, words),
        b"listen" => listens::listen(rt, words),
        b"board" => boards::board(rt, words),
        b"serial" => boards::serial(rt, words),
        b"start" => boards::start(rt, words),
        b"store" => boards::store(rt, words),
        b"reply" => replies::reply(rt, words),
        b"show" => replies::show(rt, words),
        b"nearest" => sets::nearest(rt, words),
        b"change" => sets::change(rt, words),
        b"text" => texts::text(rt, words),
        b"parse" => texts::parse(rt, words),
        b"list" => restores::list(rt, words),
        b"due" => restores::due(rt, words),
        b"follow" => follows::follow(rt, words),
        b"collect" => collects::collect(rt, words),
        b"gather" => collects::gather(rt, words),
        b"anew" => follows::anew(rt, words),
        _ => None,
    }
}
