// The serial line read byte by byte, with the time of each read, until the listener tells something.
use crate::clock;
use crate::serial::Ends;
use listen::{Listener, Told};
use paper::MOST_DATA;
use spans::Few;

// The listener's time is over long before there are this many turns.
const MOST_TURNS: u32 = 1000000000;

// The data of a frame; none of what is no frame. A frame without data says as little (under three bytes there is no reply), so no `Option`
// tells the two apart.
pub(crate) type Said = Few<MOST_DATA>;

// What was told, what was said with it, and whether nothing more can come.
#[derive(Clone, Copy)]
pub(crate) struct News {
    pub(crate) listener: Listener,
    pub(crate) told: Told,
    pub(crate) said: Said,
    pub(crate) ended: bool,
}

// Returns the news that no answer came.
pub(crate) fn silence(listener: Listener, ended: bool) -> News {
    News {
        listener,
        told: Told::NoAnswer,
        said: Said::of(&[]),
        ended,
    }
}

// Reads one byte, so that nothing is ever left over, and then the clock, without which the box waits for nothing. Nothing more can come
// where the read failed, or gave nothing where that is no second of silence on a serial line.
fn once(ends: &Ends, listener: Listener) -> News {
    let mut byte = [0; 1];
    let got = ports::read(&ends.port, &mut byte);
    match (got, clock::time(ends.system)) {
        (Ok(len), Some(now)) if len != 0 || ports::is_terminal(&ends.port) => {
            heard(listener, &byte[..len], now)
        }
        _ => silence(listener, true),
    }
}

// Hands what was read, and when, to the listener.
fn heard(listener: Listener, piece: &[u8], now: u64) -> News {
    let mut said = Said::of(&[]);
    let listened = listener.read(piece, now, &mut said.bytes);
    // `Said::of(&room[..frame.len])` was tried: the proof that the length fits did not close.
    if let Told::Frame(frame) = listened.told {
        said.len = frame.len;
    }
    News {
        listener: listened.listener,
        told: listened.told,
        said,
        ended: false,
    }
}

// Reads until something is told.
pub(crate) fn next(ends: &Ends, listener: Listener) -> News {
    let mut news = once(ends, listener);
    for _ in 0..MOST_TURNS {
        if !matches!(news.told, Told::Nothing) {
            break;
        }
        news = once(ends, news.listener);
    }
    news
}
