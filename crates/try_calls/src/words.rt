// The words of a row, with one blank between two.
ghost use Rattle.std.specs.Prelude.{◌≤◌, length};
ghost use Rattle.std.specs.Iterator.{at_most};

use crate::bytes::{self, Bytes};
use crate::numbers;
use std::io;

const BLANK: u8 = b' ';

// What became of writing a call's answer. A row whose words are not right has none, and then nothing is written.
pub type Answer = Option<io::Result<()>>;

// Words of a row, each with a blank before it.
#[derive(Clone, Copy)]
pub struct Words<'a> {
    rest: &'a [u8],
}

// Returns the word that a text begins with, and the words after it.
pub fn first_of(text: &[u8]) -> (&[u8], Words<'_>)
    ensures { length result.1.rest.now ≤ length text.now }
{
    let (word, rest) = text.split_at(spans::find(text, BLANK));
    (word, Words { rest })
}

impl<'a> Words<'a> {
    // Returns the next word as a number.
    pub fn number(&mut self) -> Option<usize> {
        numbers::number(self.next()?)
    }

    // Returns the next word as an id.
    pub fn id(&mut self) -> Option<u16> {
        numbers::id(self.next()?)
    }

    // Returns the next word as bytes.
    pub fn bytes(&mut self) -> Option<Bytes> {
        bytes::bytes(self.next()?)
    }

    // Returns the words that are left, if each is of a kind.
    pub fn rest<F: Fn(&[u8]) -> bool>(self, is_kind: F) -> Option<Words<'a>>
        requires { F.IsAlwaysCallable is_kind }
    {
        let mut words = self;
        words.all(is_kind).then_some(self)
    }

    // Returns nothing, if no word is left.
    pub fn end(self) -> Option<()> {
        self.rest.is_empty().then_some(())
    }
}

impl<'a> Iterator for Words<'a> {
    type Item = &'a [u8];

    ghost remaining = { λ s. at_most (length s.rest.now) };

    fn next(&mut self) -> Option<&'a [u8]> {
        let (word, rest) = first_of(self.rest.strip_prefix(&[BLANK])?);
        *self = rest;
        Some(word)
    }
}
