// `night show LINE`.
use crate::talk::Talk;
use crate::{serial, words};
use ports::System;
use view::{Next, Viewer};

// Shows who the board is, and its readings. The serial line is free again before the last lines; the last of them tells a show that ended
// from one that broke off.
pub(crate) fn run(system: System) {
    let Some(ends) = serial::first(system) else {
        return;
    };
    let report = ends.report;
    let viewed = Talk::start(Viewer::start(), ends.begun)
        .whole(&ends, Some(report))
        .machine;
    drop(ends);
    if let Next::Silent(_) = viewed.next {
        words::say(report, b"no answer: look at the line and its plug");
    }
    words::tell(report, sentences::shown(viewed.viewer));
}
