use std::io;

// Hands a piece to a call again and again: what the call did not take goes to it next, until all is taken or it takes nothing. A call
// may take any number of bytes, so no iterator gives the turns.
pub fn hand_on<F: FnMut(&[u8]) -> io::Result<usize>>(piece: &[u8], mut call: F) -> io::Result<()>
    requires { F.IsAlwaysCallable call }
{
    let mut left = piece;
    loop {
        let taken = call(left)?;
        if taken == 0 || left.len() <= taken {
            return Ok(());
        }
        left = &left[taken..];
    }
}
