// Reading an input whole.
ghost use Rattle.std.specs.Prelude.{◌≤◌, length};

use std::io::Read;

// Reads once. A read that fails gives no bytes, as the end does.
fn read_some<R: Read>(input: &mut R, buffer: &mut [u8]) -> usize
    ensures { result ≤ length buffer.new }
{
    input.read(buffer).unwrap_or(0)
}

// Reads until the buffer is full, the input ends or a read fails; the answer is how many bytes were put at the buffer's start.
// Stays a while: a turn goes on by as many bytes as were read.
pub fn read_full<R: Read>(input: &mut R, buffer: &mut [u8]) -> usize
    ensures { result ≤ length buffer.new }
{
    let mut done = 0;
    while done < buffer.len() {
        let more = read_some(input, &mut buffer[done..]);
        if more == 0 {
            break;
        }
        done += more;
    }
    done
}
