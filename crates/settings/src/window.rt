// What is allowed for a setting while its partner holds a number is always a window: some numbers in a row, which may be none, and 0
// besides or not.
ghost use Rattle.std.specs.Prelude.{◌≤◌, min, max, ◌≡◌, true, ◌&&◌, ◌||◌, leb, eqb};
ghost use Rattle.settings.specs.Rules.{in_window, NearestIn};

// The numbers from low to high, and 0 besides where `zero` says so.
#[derive(Clone, Copy)]
pub(crate) struct Window {
    pub(crate) zero: bool,
    pub(crate) low: u16,
    pub(crate) high: u16,
}

impl Window {
    // Returns whether a number is in the window. It has no branch, so that the compiler may look at many windows at a time.
    pub(crate) fn holds(self, n: u16) -> bool
        ensures { result ≡ in_window self.zero self.low self.high n }
    {
        (self.zero & (n == 0)) | ((self.low <= n) & (n <= self.high))
    }

    // Returns the part of the window that is at most a number. 0 stays, for it is at most any.
    pub(crate) fn at_most(self, top: u16) -> Window
        ensures { result ≡ record { zero = self.zero; low = self.low; high = min self.high top } }
    {
        Window {
            high: self.high.min(top),
            ..self
        }
    }

    // Returns the part of the window that is at least a number.
    pub(crate) fn at_least(self, bottom: u16) -> Window
        ensures { result ≡ record { zero = self.zero && eqb bottom 0; low = max self.low bottom; high = self.high } }
    {
        Window {
            zero: self.zero & (bottom == 0),
            low: self.low.max(bottom),
            ..self
        }
    }

    // Returns the nearest number of a window that is not empty: 0 where it is in the window and at least as near as the one in the row.
    pub(crate) fn nearest(self, wished: u16) -> u16
        requires { (self.zero || leb self.low self.high) ≡ true }
        ensures { NearestIn (in_window self.zero self.low self.high) wished result }
    {
        if self.high < self.low {
            return 0;
        }
        let other = wished.clamp(self.low, self.high);
        if self.zero && wished <= other.abs_diff(wished) {
            return 0;
        }
        other
    }
}
