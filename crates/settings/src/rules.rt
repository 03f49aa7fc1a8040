// Document 01's rules for a number: a setting's own range, the pair rule, and both together.
#![tactic(auto, unfolding(crate::specs::Rules::in_range, crate::specs::Rules::low_agrees, crate::specs::Rules::high_agrees, crate::specs::Rules::agrees, crate::specs::Rules::allowed_for, crate::specs::Calls::partner_fits))]

ghost use Rattle.std.specs.Prelude.{ℕ, ◌≡◌, true, not, ◌&&◌, ◌||◌, get_or};
ghost use Rattle.laws.specs.Lists.{up_to};
ghost use Rattle.settings.specs.Columns.{count, partner_at, role_at, is_low_first, is_high_first};
ghost use Rattle.settings.specs.Rules.{in_window, in_range, low_agrees, high_agrees, agrees, allowed_for, nearest_of};
ghost use Rattle.settings.specs.Calls.{partner_fits};

use crate::columns::{Place, Role};
use crate::window::Window;
use crate::{COUNT, columns};

// Returns whether a low pair agrees: the first is at most the second. This and the next are document 01's two rules, each by its name in
// specs/Rules.antt; the edit zero_agrees changes this one alone.
fn low_agrees(first: u16, second: u16) -> bool
    ensures { result ≡ low_agrees first second }
{
    first <= second
}

// Returns whether a high pair agrees: the first is at least the second.
fn high_agrees(first: u16, second: u16) -> bool
    ensures { result ≡ high_agrees first second }
{
    second <= first
}

impl Role {
    // Returns whether a number agrees with the partner's.
    fn agrees(self, n: u16, partner: u16) -> bool
        ensures { result ≡ agrees self n partner }
    {
        match self {
            Role::Alone => true,
            Role::LowFirst => low_agrees(n, partner),
            Role::LowSecond => low_agrees(partner, n),
            Role::HighFirst => high_agrees(n, partner),
            Role::HighSecond => high_agrees(partner, n),
        }
    }

    // Returns whether a setting agrees with the one after it, if that is its partner. It has no branch, so that the compiler may look at many
    // settings at a time.
    fn agrees_next(self, n: u16, next: u16) -> bool
        ensures { result ≡ ((not (is_low_first self) || low_agrees n next) && (not (is_high_first self) || high_agrees n next)) }
    {
        ((self != Role::LowFirst) | low_agrees(n, next))
            & ((self != Role::HighFirst) | high_agrees(n, next))
    }
}

impl Place {
    // Returns whether a number is in the setting's own range.
    pub(crate) fn in_range(self, n: u16) -> bool
        ensures { result ≡ in_range self.index n }
    {
        self.range().holds(n)
    }

    // Returns whether a number is allowed for the setting while its partner holds another.
    pub(crate) fn allows(self, n: u16, partner: u16) -> bool
        ensures { result ≡ allowed_for self.index n partner }
    {
        self.in_range(n) & self.role().agrees(n, partner)
    }

    // Returns whether a partner's number may be handed in: it is in the partner's own range, or there is no partner.
    pub(crate) fn fits(self, partner: u16) -> bool
        ensures { result ≡ partner_fits self.index partner }
    {
        let other = self.partner();
        (other.index == self.index) | other.in_range(partner)
    }

    // Returns what is allowed for the setting while its partner holds a number: its own range, cut by the pair rule.
    fn allowed(self, partner: u16) -> Window
        ensures { (n : ℕ) → in_window result.zero result.low result.high n ≡ allowed_for self.index n partner }
    {
        let range = self.range();
        match self.role() {
            Role::Alone => range,
            Role::LowFirst | Role::HighSecond => range.at_most(partner),
            Role::LowSecond | Role::HighFirst => range.at_least(partner),
        }
    }

    // Returns the nearest allowed number, for a partner's number in its own range.
    pub(crate) fn nearest(self, wished: u16, partner: u16) -> u16
        requires { partner_fits self.index partner ≡ true }
        ensures { result ≡ nearest_of self.index wished partner }
    {
        self.allowed(partner).nearest(wished)
    }
}

// Returns whether every number is in its own range. Each column is made once, and not again for each number.
pub(crate) fn all_in_range(numbers: [u16; COUNT]) -> bool
    ensures { result ≡ up_to count (λ k. in_range k (get_or numbers k 0)) }
{
    let zeros = columns::zeros();
    let lows = columns::lows();
    let highs = columns::highs();
    let mut all = true;
    for i in 0..COUNT {
        let range = Window {
            zero: zeros[i],
            low: lows[i],
            high: highs[i],
        };
        all &= range.holds(numbers[i]);
    }
    all
}

// Returns whether every number agrees with its partner's. The two of a pair are neighbours, so only the first is compared with the number
// after it: the second then agrees too.
pub(crate) fn all_agree(numbers: [u16; COUNT]) -> bool
    ensures { result ≡ up_to count (λ k. agrees (role_at k) (get_or numbers k 0) (get_or numbers (partner_at k) 0)) }
{
    let roles = columns::roles();
    let mut all = true;
    for i in 0..COUNT - 1 {
        all &= roles[i].agrees_next(numbers[i], numbers[i + 1]);
    }
    all
}
