// Writes the interval rows of the bundle on standard input to standard output, as CSV. With the argument `check` standard input has the
// bundle's length in 4 bytes, the bundle, and given records of 32 bytes each, and what is written is whether they are the bundle's. A
// refusal is a line on standard error, and leaves standard output empty.
#![tactic(auto)]

mod csv;

use bundle::limits::MOST_BYTES;
use csv::push_csv;
use rows::records::{RECORD_BYTES, check_records};
use telling::arguments::{argument, has_argument, same_word};
use telling::input::read_full;
use telling::refusals::print_refused;
use text::line::Line;

// The most that is looked at of the input of a check: a bundle that is too long, and one record more than a bundle can have.
const CHECK_BYTES: usize = 81957;

fn print_rows<O: Print, E: Print>(output: &O, errors: &E, bytes: &[u8]) {
    let mut text = Line::new();
    match push_csv(&mut text, bytes) {
        Ok(()) => {
            let _ = output.write_all(text.text());
        }
        Err(refusal) => print_refused(errors, refusal),
    }
}

// One byte more than a bundle may have is read, so that a longer input is refused as too long.
fn print_input(rt: &HostRuntime) {
    let mut bytes = [0u8; MOST_BYTES + 1];
    let size = read_full(&mut rt.stdin(), &mut bytes);
    print_rows(&rt.stdout(), &rt.stderr(), &bytes[..size]);
}

fn print_checked<O: Print, E: Print>(output: &O, errors: &E, bytes: &[u8], given: &[u8]) {
    match check_records(bytes, given) {
        Ok(()) => {
            let _ = output.write_all(b"the rows\n");
        }
        Err(refusal) => print_refused(errors, refusal),
    }
}

// The bundle and the records of an input that has the length of a bundle, that bundle, and whole records.
fn parts_of(input: &[u8]) -> Option<(&[u8], &[u8])> {
    let (length, rest) = input.split_first_chunk::<4>()?;
    let (bytes, given) = rest.split_at_checked(u32::from_le_bytes(*length) as usize)?;
    if MOST_BYTES + 1 < bytes.len() || given.len() % RECORD_BYTES != 0 {
        return None;
    }
    Some((bytes, given))
}

fn check_bytes<O: Print, E: Print>(output: &O, errors: &E, input: &[u8]) {
    match parts_of(input) {
        Some((bytes, given)) => print_checked(output, errors, bytes, given),
        None => {
            let _ = errors.write_all(b"interval_rows: not a bundle and records\n");
        }
    }
}

fn check_input(rt: &HostRuntime) {
    let mut input = [0u8; CHECK_BYTES];
    let size = read_full(&mut rt.stdin(), &mut input);
    check_bytes(&rt.stdout(), &rt.stderr(), &input[..size]);
}

fn main(rt: HostRuntime) {
    let mut word = [0u8; 4096];
    let size = argument(&rt, 1, &mut word);
    if !has_argument(&rt, 1) {
        print_input(&rt);
        return;
    }
    if !has_argument(&rt, 2) & same_word(&word[..size], b"check") {
        check_input(&rt);
        return;
    }
    let _ = rt
        .stderr()
        .write_all(b"usage: interval_rows [check] < INPUT\n");
}
