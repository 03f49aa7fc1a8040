// The decimal numbers that a row may have: one to five digits, with no leading zero.
ghost use Rattle.std.specs.Prelude.{◌≡◌, cond, Some, None};
ghost use Rattle.rows.specs.Decimals.{is_number, value_of};

use spans::Within;

const DECIMAL: Within = Within {
    low: b'0',
    high: b'9',
};

const MOST_DIGITS: usize = 5;

// Returns whether these are one to five decimal digits with no leading zero but a lone 0.
#[tactic(auto, unfolding(crate::specs::Decimals::is_number))]
fn is_number(digits: &[u8]) -> bool
    ensures { result ≡ is_number digits.now }
{
    matches!(digits.len(), 1..=MOST_DIGITS)
        && spans::all(digits, DECIMAL)
        && (digits.len() == 1 || digits[0] != b'0')
}

// Returns the number of such digits, and none for any others. (`parse` reads +5 and 005 too, and a str: the test above would stay, and a
// `from_utf8` come to it.) A digit is widened before b'0' is taken from it, so that the processor has fewer steps for each.
pub(crate) fn value_of(digits: &[u8]) -> Option<usize>
    ensures { result ≡ cond (is_number digits.now) (Some (value_of digits.now)) None }
{
    if !is_number(digits) {
        return None;
    }
    let mut n = 0;
    for c in digits {
        n = n * 10 + (*c as usize - b'0' as usize);
    }
    Some(n)
}
