// Bytes copied and searched by their kind (`Kind`), and a few of them in an array of fixed room (`Few`). Every call takes anything.
#![tactic(auto)]

ghost use Rattle.std.specs.Prelude.{ℕ, Bool, ◌≤◌, ◌≡◌, ◌==◌, ◌&&◌, eqb, leb, length, min, take, ◌++◌};
ghost use Rattle.laws.specs.Lists.{before, every};
ghost use Rattle.laws.specs.Promise.{overlaid};
ghost use Rattle.spans.specs.Few.{few, those, tidy};

// A kind of byte: a test that some bytes pass.
pub trait Kind: Copy {
    ghost holds: { Self → ℕ → Bool };

    // Returns whether a byte is of this kind.
    fn holds(self, b: u8) -> bool
        ensures { result ≡ holds self b };
}

// One byte alone.
#[derive(Clone, Copy, PartialEq, Eq)]
pub struct Byte(pub u8);

impl Kind for Byte {
    ghost holds = { λ kind b. eqb kind.0 b };

    fn holds(self, b: u8) -> bool {
        self.0 == b
    }
}

// The bytes from low to high, both included.
#[derive(Clone, Copy, PartialEq, Eq)]
pub struct Within {
    pub low: u8,
    pub high: u8,
}

impl Kind for Within {
    ghost holds = { λ kind b. leb kind.low b && leb b kind.high };

    fn holds(self, b: u8) -> bool {
        (self.low <= b) & (b <= self.high)
    }
}

// Copies bytes over the front of others, as many as there is room for, and returns how many.
pub fn copy(from: &[u8], to: &mut [u8]) -> usize
    ensures count { result ≡ min (length from.now) (length to.old) }
    ensures copied { to.new ≡ overlaid (take (length to.old) from.now) to.old }
{
    let n = from.len().min(to.len());
    to[..n].copy_from_slice(&from[..n]);
    n
}

// Returns whether every byte is of a kind. It has no early return, so that the compiler may look at many bytes at a time.
pub fn all<K: Kind>(bytes: &[u8], kind: K) -> bool
    ensures { result ≡ every (K.holds kind) bytes.now }
{
    let mut all = true;
    for b in bytes {
        all &= kind.holds(*b);
    }
    all
}

// Returns the place of the first byte of a kind, or how many bytes there are where it is none of them. As `position(..).unwrap_or(..)` its
// proof did not close.
pub fn first<K: Kind>(bytes: &[u8], kind: K) -> usize
    ensures within { result ≤ length bytes.now }
    ensures first { result ≡ before (K.holds kind) bytes.now }
{
    for (i, b) in bytes.iter().enumerate() {
        if kind.holds(*b) {
            return i;
        }
    }
    bytes.len()
}

// Returns the place of the first byte of a value, or how many bytes there are where it is none of them. It stays beside `first`, with the
// statement find_same of its own: its clause names the byte, and no kind.
pub fn find(bytes: &[u8], wanted: u8) -> usize
    ensures within { result ≤ length bytes.now }
    ensures first { result ≡ before (λ b. b == wanted) bytes.now }
{
    first(bytes, Byte(wanted))
}

// At most N bytes: they fill the front of the array, and the rest of it is 0. A caller can make up one that is not so, and every call takes
// it: `is_tidy` tells. The ArrayVec of the kit is no Copy and holds no untidy value, while the laws AllowedIsNamed (who) and AllowedIsLeft
// (stream) speak of such.
#[derive(Clone, Copy, PartialEq, Eq)]
pub struct Few<const N: usize> {
    pub len: usize,
    pub bytes: [u8; N],
}

impl<const N: usize> Few<N> {
    // Returns these bytes, as many as there is room for.
    pub fn of(bytes: &[u8]) -> Few<N>
        ensures { result ≡ few N (take N bytes.now) }
    {
        let mut front = [0u8; N];
        let len = copy(bytes, &mut front);
        Few { len, bytes: front }
    }

    // Returns the bytes.
    pub fn as_slice(&self) -> &[u8]
        ensures { result.now ≡ those self.now }
    {
        &self.bytes[..self.len.min(N)]
    }

    // Returns whether there are no more bytes than there is room for, with 0 past them.
    pub fn is_tidy(&self) -> bool
        ensures { result ≡ tidy self.now }
    {
        if N < self.len {
            return false;
        }
        let whole = &self.bytes[..];
        all(&whole[self.len..], Byte(0))
    }

    // Returns these bytes with more after them, as many as there is room for.
    pub fn put(&self, more: &[u8]) -> Few<N>
        ensures { result ≡ few N (take N (those self.now ++ more.now)) }
    {
        let mut bytes = [0u8; N];
        let len = copy(self.as_slice(), &mut bytes);
        let whole = &mut bytes[..];
        let more = copy(more, &mut whole[len..]);
        Few {
            len: len + more,
            bytes,
        }
    }
}
