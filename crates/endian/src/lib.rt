// Numbers as bytes, the low one first, and whole numbers in two's complement. Every call takes anything, and its promise fixes its answer
// (specs/Numbers.antt).
#![tactic(auto)]

ghost use Rattle.std.specs.Prelude.{◌≡◌, take};
ghost use Rattle.laws.specs.Promise.{front_of};
ghost use Rattle.endian.specs.Numbers.{little, from_little, complement, signed};

// Returns the first N bytes. One that is missing counts as 0.
fn first<const N: usize>(bytes: &[u8]) -> [u8; N]
    ensures { result ≡ front_of N (take N bytes.now) }
{
    let mut front = [0u8; N];
    spans::copy(bytes, &mut front);
    front
}

// The calls below are pairs, and each body is the one method that std has for both widths. A trait with an impl for each type has the same
// eight bodies, and four calls besides: it is longer, and a number's width then is a second parameter at every call. The callers ask here and
// not std, since the clauses are in `little`, `from_little`, `signed` and `complement`, as the laws LittleIsRead and ComplementIsRead are.

// Returns the number of the first two bytes. One that is missing counts as 0.
pub fn read_16(bytes: &[u8]) -> u16
    ensures { result ≡ from_little (take 2 bytes.now) }
{
    u16::from_le_bytes(first(bytes))
}

// Returns the number of the first four bytes. One that is missing counts as 0.
pub fn read_32(bytes: &[u8]) -> u32
    ensures { result ≡ from_little (take 4 bytes.now) }
{
    u32::from_le_bytes(first(bytes))
}

// Returns the two bytes of a number.
pub fn bytes_16(n: u16) -> [u8; 2]
    ensures { result ≡ little 2 n }
{
    u16::to_le_bytes(n)
}

// Returns the four bytes of a number.
pub fn bytes_32(n: u32) -> [u8; 4]
    ensures { result ≡ little 4 n }
{
    u32::to_le_bytes(n)
}

// Returns the whole number whose two's complement in 16 bits is `n`.
pub fn signed_16(n: u16) -> i16
    ensures { result ≡ signed 2 n }
{
    u16::cast_signed(n)
}

// Returns the whole number whose two's complement in 32 bits is `n`.
pub fn signed_32(n: u32) -> i32
    ensures { result ≡ signed 4 n }
{
    u32::cast_signed(n)
}

// Returns the two's complement of a whole number, in 16 bits.
pub fn complement_16(x: i16) -> u16
    ensures { result ≡ complement 2 x }
{
    i16::cast_unsigned(x)
}

// Returns the two's complement of a whole number, in 32 bits.
pub fn complement_32(x: i32) -> u32
    ensures { result ≡ complement 4 x }
{
    i32::cast_unsigned(x)
}
