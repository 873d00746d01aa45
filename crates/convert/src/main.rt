// Writes the bundle on standard input to standard output with its accesses in the group that the argument names, `wide` or `narrow`. A bundle
// that is refused leaves standard output empty; the refusal is a line on standard error.
#![tactic(auto)]

use bundle::limits::MOST_BYTES;
use rewrite::convert::convert;
use telling::arguments::{argument, has_argument, same_word};
use telling::input::read_full;
use telling::refusals::print_refused;

// Stays beside that of canon: one for both would have to ask of a closure that what it writes lies in the buffer.
fn print_converted<O: Print, E: Print>(output: &O, errors: &E, bytes: &[u8], wide: bool) {
    let mut buffer = [0u8; MOST_BYTES];
    match convert(bytes, wide, &mut buffer) {
        Ok(size) => {
            let _ = output.write_all(&buffer[..size]);
        }
        Err(refusal) => print_refused(errors, refusal),
    }
}

// One byte more than a bundle may have is read, so that a longer input is refused as too long.
fn convert_input(rt: &HostRuntime, wide: bool) {
    let mut bytes = [0u8; MOST_BYTES + 1];
    let size = read_full(&mut rt.stdin(), &mut bytes);
    print_converted(&rt.stdout(), &rt.stderr(), &bytes[..size], wide);
}

fn convert_as(rt: &HostRuntime, word: &[u8]) {
    if same_word(word, b"wide") {
        convert_input(rt, true);
        return;
    }
    if same_word(word, b"narrow") {
        convert_input(rt, false);
        return;
    }
    let _ = rt
        .stderr()
        .write_all(b"usage: convert wide|narrow < BUNDLE\n");
}

// Several arguments are none of the two words.
fn main(rt: HostRuntime) {
    let mut word = [0u8; 4096];
    let size = argument(&rt, 1, &mut word);
    if has_argument(&rt, 2) {
        convert_as(&rt, b"");
        return;
    }
    convert_as(&rt, &word[..size]);
}
