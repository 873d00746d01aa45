// Rewriting a bundle into a buffer: with its chunks in order, or with its accesses in one group.
use crate::answer::{Counted, Hex, Shown, put};
use crate::frame::Frame;
use bundle::refusal::Refusal;

// REWRITE, TO_WIDE and TO_NARROW: the length of the buffer (4 bytes, at most 66,000) and what each of its bytes is (1), then the
// bundle. Puts what the operation answers, and the whole buffer.
pub(crate) fn fill<P: Print, F: FnOnce(&[u8], &mut [u8]) -> Result<usize, Refusal>>(
    to: &P,
    body: &[u8],
    operation: F,
) -> Option<()>
    requires { F.IsAlwaysCallable operation }
{
    let mut frame = Frame::new(body);
    let length = frame.u32()? as usize;
    let mut memory = [frame.u8()?; 66000];
    let buffer = memory.get_mut(..length)?;
    let answer = operation(frame.rest(), buffer);
    put(to, &answer.map(|size| Counted("rewritten", size)));
    let _ = print!(to; " {}", Shown(&Hex(buffer)));
    Some(())
}
