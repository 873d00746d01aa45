// Writes the bundle on standard input to standard output with its chunks by team, then member. A bundle that is refused leaves standard
// output empty; the refusal is a line on standard error.
#![tactic(auto)]

use bundle::limits::MOST_BYTES;
use rewrite::rewrite::rewrite;
use telling::input::read_full;
use telling::refusals::print_refused;

// Stays beside that of convert: one for both would have to ask of a closure that what it writes lies in the buffer.
fn print_rewritten<O: Print, E: Print>(output: &O, errors: &E, bytes: &[u8]) {
    let mut buffer = [0u8; MOST_BYTES];
    match rewrite(bytes, &mut buffer) {
        Ok(size) => {
            let _ = output.write_all(&buffer[..size]);
        }
        Err(refusal) => print_refused(errors, refusal),
    }
}

// One byte more than a bundle may have is read, so that a longer input is refused as too long.
fn main(rt: HostRuntime) {
    let mut bytes = [0u8; MOST_BYTES + 1];
    let size = read_full(&mut rt.stdin(), &mut bytes);
    print_rewritten(&rt.stdout(), &rt.stderr(), &bytes[..size]);
}
