// The accesses of a bundle put into one group, wide or narrow, in a lent buffer; the other commands as they are.
ghost use Rattle.std.specs.Prelude.{IfOk, ◌≡◌, true, false, ◌+◌, ◌≤◌, length};
ghost use Rattle.bundle.specs.Answer.{answer_of};
ghost use Rattle.bundle.specs.Commands.{bytes_of, written};
ghost use Rattle.bundle.specs.Check.{Accepted};
ghost use Rattle.rewrite.specs.Converting.{regrouped, site_over, converted, convert_of};
ghost use Rattle.rewrite.specs.Conversion.{Converts};
ghost use Rattle.rewrite.specs.Measuring.{measured_after, measured_of, size_to, Puttable, Convertible};

use bundle::check::check;
use bundle::command::{Access, Command, Taken, put_command, read_command};
use bundle::limits::MOST_BYTES;
use bundle::refusal::{Cause, Refusal};

// What is known of the result after some commands: its bytes so far, and the offset of the first command with a site over 65,535.
#[derive(Clone, Copy)]
pub struct Measured {
    pub size: usize,
    pub over: Option<usize>,
}

// The command in the wanted group, with the same operands.
#[tactic(auto, unfolding(crate::specs::Converting::regrouped, crate::specs::Converting::in_group))]
fn regroup(command: Command, wide: bool) -> Command
    ensures { result ≡ regrouped wide command }
{
    match command {
        Command::Access(access) => Command::Access(Access { wide, ..access }),
        _ => command,
    }
}

// How many bytes the command has in the wanted group.
fn size_in(command: Command, wide: bool) -> usize
    ensures { result ≡ length (bytes_of (regrouped wide command)) }
{
    match command {
        Command::Member { .. } | Command::Region { .. } => 4,
        Command::Acquire(_) | Command::Release(_) => 2,
        Command::Access(_) => if wide { 14 } else { 12 },
        Command::End | Command::Barrier | Command::Cut => 1,
    }
}

// Whether the command has a site over 65,535.
#[tactic(auto, unfolding(crate::specs::Converting::site_over))]
fn site_over(command: Command) -> bool
    ensures { result ≡ site_over command }
{
    match command {
        Command::Access(access) => 65535 < access.site,
        _ => false,
    }
}

impl Measured {
    // One more command, at an offset.
    fn with(self, command: Command, at: usize, wide: bool) -> Measured
        requires { self.size ≤ 1000000 }
        ensures { result ≡ measured_after wide self (record { at = at; command = command }) }
    {
        Measured {
            size: self.size + size_in(command, wide),
            over: self.over.or(site_over(command).then_some(at)),
        }
    }
}

// All commands of an accepted bundle, none of which is refused before its end.
fn measure(bytes: &[u8], wide: bool) -> Measured
    requires { Accepted bytes.now }
    ensures { result ≡ measured_of wide bytes.now }
{
    let mut at = 0;
    let mut measured = Measured {
        size: 0,
        over: None,
    };
    while let Ok(Taken { next, command }) = read_command(bytes, at) {
        measured = measured.with(command, at, wide);
        at = next;
    }
    measured
}

// How many bytes an accepted bundle has in the wanted group; or why it can't be put into it.
fn size_to(bytes: &[u8], wide: bool) -> Result<usize, Refusal>
    requires { Accepted bytes.now }
    ensures { answer_of result ≡ size_to wide bytes.now }
{
    let measured = measure(bytes, wide);
    if !wide {
        return match measured.over {
            Some(place) => Err(Refusal {
                place,
                cause: Cause::SiteTooLarge,
            }),
            None => Ok(measured.size),
        };
    }
    if MOST_BYTES < measured.size {
        return Err(Refusal {
            place: 0,
            cause: Cause::BundleTooLong,
        });
    }
    Ok(measured.size)
}

// Puts the command into the buffer in the wanted group; the answer is the position after it.
fn put_regrouped(command: Command, wide: bool, buffer: &mut [u8], position: usize) -> usize
    requires { Puttable wide command (length buffer.old) position }
    ensures { (result ≡ position + length (bytes_of (regrouped wide command))) × (buffer.new ≡ written buffer.old position (bytes_of (regrouped wide command))) }
{
    put_command(regroup(command, wide), buffer, position).unwrap()
}

// Puts all commands over the front of the buffer.
fn put_all(bytes: &[u8], wide: bool, buffer: &mut [u8])
    requires { Convertible wide bytes.now × (length (converted wide bytes.now) ≤ length buffer.old) }
    ensures { buffer.new ≡ written buffer.old 0 (converted wide bytes.now) }
{
    let mut at = 0;
    let mut position = 0;
    while let Ok(Taken { next, command }) = read_command(bytes, at) {
        position = put_regrouped(command, wide, buffer, position);
        at = next;
    }
}

// Puts an accepted bundle into the buffer with its accesses in the wide group or in the narrow one; the answer is how many bytes were
// written. Refused, the buffer is untouched.
pub fn convert(bytes: &[u8], wide: bool, buffer: &mut [u8]) -> Result<usize, Refusal>
    ensures buffer_after { record { answer = answer_of result; buffer = buffer.new } ≡ convert_of wide bytes.now buffer.old }
    ensures fits { IfOk result (λ size. size ≤ length buffer.new) }
    ensures conversion { Accepted bytes.now → Converts bytes.now }
{
    check(bytes)?;
    let size = size_to(bytes, wide)?;
    if buffer.len() < size {
        return Err(Refusal {
            place: 0,
            cause: Cause::DoesNotFit,
        });
    }
    put_all(bytes, wide, buffer);
    Ok(size)
}

// To the wide group. Stays beside `to_narrow`: the documents name both operations.
pub fn to_wide(bytes: &[u8], buffer: &mut [u8]) -> Result<usize, Refusal>
    ensures buffer_after { record { answer = answer_of result; buffer = buffer.new } ≡ convert_of true bytes.now buffer.old }
    ensures fits { IfOk result (λ size. size ≤ length buffer.new) }
    ensures conversion { Accepted bytes.now → Converts bytes.now }
{
    convert(bytes, true, buffer)
}

// To the narrow group.
pub fn to_narrow(bytes: &[u8], buffer: &mut [u8]) -> Result<usize, Refusal>
    ensures buffer_after { record { answer = answer_of result; buffer = buffer.new } ≡ convert_of false bytes.now buffer.old }
    ensures fits { IfOk result (λ size. size ≤ length buffer.new) }
    ensures conversion { Accepted bytes.now → Converts bytes.now }
{
    convert(bytes, false, buffer)
}
