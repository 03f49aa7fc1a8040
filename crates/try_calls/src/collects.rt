use crate::events::Event;
use crate::words::{Answer, Words};
use crate::{puts, say};
use collect::{Collected, Collector, Stage};
use settings::{COUNT, Setting};
use std::io;
use tables::Table;

// Answers `collect ID EVENT ..`: a start, and every setting before this id answered with its factory number; then what the events tell.
pub fn collect(rt: &impl Print, mut words: Words) -> Answer {
    let before = words.id()?;
    let events = words.rest(Event::is)?;
    Some(hears(rt, answered(before), events))
}

// Answers `gather LEN SILENCES EVENT ..`: a collector made by hand, with LEN settings answered, every number 0, and no answer to this many
// Gets.
pub fn gather(rt: &impl Print, mut words: Words) -> Answer {
    let len = words.number()?;
    let silences = words.number()?;
    let events = words.rest(Event::is)?;
    let made = Collector {
        len,
        numbers: [0; COUNT],
        silences,
        stopped: false,
    };
    Some(hears(rt, made, events))
}

// Returns a collector from its start on, with the settings before an id answered, each with its factory number; all, if it is no setting's.
fn answered(before: u16) -> Collector {
    let mut collector = Collector::start().collector;
    for (place, number) in Table::factory().numbers.iter().enumerate() {
        let setting = settings::setting_at(place);
        if setting.id == before {
            return collector;
        }
        collector = good(collector, setting, *number);
    }
    collector
}

// Hands a collector a good Get reply.
fn good(collector: Collector, setting: Setting, number: u16) -> Collector {
    let [id_low, id_high] = setting.id.to_le_bytes();
    let [low, high] = number.to_le_bytes();
    let data = [id_low, id_high, 0, low, high];
    let len = if setting.width == 1 { 4 } else { 5 };
    collector.reply(paper::GET_CODE, &data[..len]).collector
}

// Hands a collector events, and writes each answer. `follows` has a match like this one: the answers are types of their own, and a trait with
// its two impls would be longer than two matches.
fn hears(rt: &impl Print, collector: Collector, events: Words) -> io::Result<()> {
    let mut collector = collector;
    for event in events.filter_map(Event::of) {
        let answer = match event {
            Event::Frame { command, data } => collector.reply(command, &data),
            Event::Refused => collector.refused_frame(),
            Event::Silence => collector.no_answer(),
        };
        collector = answer.collector;
        told(rt, answer)?;
    }
    Ok(())
}

// Writes an answer: how far the collector is, how many settings were answered, and what is not the factory's in the table.
fn told(rt: &impl Print, answer: Collected) -> io::Result<()> {
    match answer.stage {
        Stage::Waiting(setting) => print!(rt; " waiting {:04X}", setting.id)?,
        Stage::Done => rt.print(" done")?,
        Stage::Stopped(setting) => print!(rt; " stopped {:04X}", setting.id)?,
        Stage::Refused(refusal) => say::refused(rt, refusal)?,
    }
    print!(rt; " {}", answer.answered)?;
    puts::differences(rt, answer.table)?;
    rt.print(";")
}
