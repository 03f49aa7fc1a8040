// A printed line in an array of fixed room, and what is put after it: words, decimal numbers and numbers of steps in their unit. Every call
// takes anything, and its promise fixes its answer (specs/Lines.antt, specs/Numbers.antt).
#![tactic(auto)]

ghost use Rattle.std.specs.Prelude.{◌≡◌, []};
ghost use Rattle.lines.specs.Lines.{line_of, adding};
ghost use Rattle.lines.specs.Numbers.{last_digit, decimal, steps, pointed};
ghost use Rattle.lines.specs.AsPut.{last_digits};

use spans::Few;

// The most characters of a line. What a text has past them is cut off.
pub const MOST: usize = 160;

// The characters of a line.
#[derive(Clone, Copy, PartialEq, Eq)]
pub struct Line {
    pub text: Few<MOST>,
}

// Returns how many steps a unit of this many decimals has: the four cases of the clause, `steps`. As a power it is no plainer:
// `10usize.pow(u32::from(decimals.min(3)))`.
fn steps_of(decimals: u8) -> usize
    ensures { result ≡ steps decimals }
{
    match decimals {
        0 => 1,
        1 => 10,
        2 => 100,
        _ => 1000,
    }
}

impl Line {
    // Returns a line with nothing in it.
    #[tactic(auto, unfolding(crate::specs::Lines::line_of))]
    pub fn start() -> Line
        ensures { result ≡ line_of [] }
    {
        Line { text: Few::of(&[]) }
    }

    // Returns the line with a text after it.
    #[tactic(auto, unfolding(crate::specs::Lines::line_of, crate::specs::Lines::adding))]
    pub fn put(self, text: &[u8]) -> Line
        ensures { result ≡ adding self text.now }
    {
        Line {
            text: self.text.put(text),
        }
    }

    // Returns the line with the last decimal digit of a number after it. Numbers are put digit by digit, a test and a call each: a fraction wants
    // its leading zeros, a line cuts off what is past its room (`adding`), and `write!` gives an error there.
    fn put_digit(self, n: usize) -> Line
        ensures { result ≡ adding self (last_digit n) }
    {
        self.put(&[b'0' + (n % 10) as u8])
    }

    // Returns the line with a number after it, in decimal digits without leading zeros.
    #[tactic(auto, using(crate::proofs::Adding::further, crate::proofs::Digits::one_digit, crate::proofs::Digits::tenth_and_last))]
    pub fn put_number(self, n: usize) -> Line
        ensures { result ≡ adding self (decimal n) }
    {
        if n < 10 {
            return self.put_digit(n);
        }
        self.put_number(n / 10).put_digit(n)
    }

    // Returns the line with a point after it and as many of a number's last digits.
    #[tactic(auto, using(crate::proofs::Adding::further, crate::proofs::Fractions::digit_more))]
    fn put_fraction(self, n: usize, decimals: u8) -> Line
        ensures { result ≡ adding self (last_digits decimals n) }
    {
        if decimals == 0 {
            return self.put(b".");
        }
        self.put_fraction(n / 10, decimals - 1).put_digit(n)
    }

    // Returns the line with a whole number of steps after it, in the unit that the steps divide: 0 to 3 decimals, and more count as 3.
    #[tactic(auto, using(crate::proofs::Fractions::pointed_none, crate::proofs::Fractions::pointed_put))]
    pub fn put_pointed(self, n: usize, decimals: u8) -> Line
        ensures { result ≡ adding self (pointed n decimals) }
    {
        let whole = self.put_number(n / steps_of(decimals));
        if decimals == 0 {
            return whole;
        }
        whole.put_fraction(n, decimals.min(3))
    }
}
