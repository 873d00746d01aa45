// The commands of a run log: "One byte, then operands of fixed width, low byte first", read from bytes and put into them.
ghost use Rattle.std.specs.Prelude.{◌≡◌, true, false, cond, ◌||◌, ◌⊎◌, ◌+◌, ◌-◌, ◌%◌, ◌≤◌, ltb, leb, [], ◌∷◌, length};
ghost use Rattle.bundle.specs.Commands.{number_at, kind_of, size_ok, stride_ok, last_byte, range_ok, in_range, decode_at, read_at, kind_byte, access_byte, access_widths, operand_bytes, bytes_of, put_at, ranged};
ghost use Rattle.bundle.specs.Inner.{StandsAt, AccessAt, AccessTo, range_operands, Holds};
ghost use Rattle.bundle.specs.Answer.{answer_of, refuses, when_given};

use crate::copy::copy_in;
use crate::refusal::{Cause, Refusal};

// The first bytes of the commands but the accesses (docs/FORMAT.md).
const MEMBER: u8 = 0x01;

const END: u8 = 0x02;

const CUT: u8 = 0x03;

const REGION: u8 = 0x10;

const BARRIER: u8 = 0x11;

const ACQUIRE: u8 = 0x20;

const RELEASE: u8 = 0x21;

// What an access does, with its command byte in the narrow group; the wide group's are 8 more.
#[derive(Clone, Copy, PartialEq, Eq)]
pub enum AccessKind {
    Read = 0x30,
    Write = 0x31,
    AtomicRead = 0x32,
    AtomicWrite = 0x33,
}

impl From<AccessKind> for u8 {
    ghost from_gives = { λ kind byte. byte ≡ kind_byte kind };

    #[tactic(auto, unfolding(crate::specs::Commands::kind_byte))]
    fn from(kind: AccessKind) -> u8 {
        kind as u8
    }
}

// The bytes base + k * stride + j, with k below count and j below size.
#[derive(Clone, Copy)]
pub struct Range {
    pub base: u32,
    pub stride: u16,
    pub count: u16,
    pub size: u8,
}

// An access of the narrow group, 0x30 to 0x33, or of the wide one, 0x38 to 0x3b, whose site has 4 bytes.
#[derive(Clone, Copy)]
pub struct Access {
    pub kind: AccessKind,
    pub wide: bool,
    pub site: u32,
    pub range: Range,
}

#[derive(Clone, Copy)]
pub enum Command {
    Member { team: u16, member: u8 },
    End,
    Region { team: u16, size: u8 },
    Barrier,
    Acquire(u8),
    Release(u8),
    Access(Access),
    Cut,
}

// A command that was read, and the position after it.
#[derive(Clone, Copy)]
pub struct Taken {
    pub next: usize,
    pub command: Command,
}

// Stays a test of bits 1, 2, 4 and 8 of a number: with `matches!` the lowest shared byte of two ranges took 1.35 times as long.
fn size_ok(size: u8) -> bool
    ensures { result ≡ size_ok size }
{
    if 8 < size {
        return false;
    }
    (0x116u32 >> size) % 2 == 1
}

fn stride_ok(stride: u16, count: u16) -> bool
    ensures { result ≡ stride_ok stride count }
{
    if count == 1 { stride == 0 } else { 1 <= stride }
}

fn last_ok(range: Range) -> bool
    requires { (1 ≤ range.count) × (1 ≤ range.size) }
    ensures { result ≡ leb (last_byte range) 4294967295 }
{
    let base = range.base as u64;
    let stride = range.stride as u64;
    let count = range.count as u64;
    let size = range.size as u64;
    base + (count - 1) * stride + (size - 1) <= 4294967295
}

// Whether a range of bytes is one that the format allows (docs/FORMAT.md).
pub fn range_ok(range: Range) -> bool
    ensures { result ≡ range_ok range }
{
    let stride = range.stride;
    let count = range.count;
    let size = range.size;
    if count < 1 {
        return false;
    }
    if !stride_ok(stride, count) {
        return false;
    }
    if !size_ok(size) {
        return false;
    }
    last_ok(range)
}

// Whether a site fits the width of its group.
fn site_ok(wide: bool, site: u32) -> bool
    ensures { result ≡ (wide || ltb site 65536) }
{
    wide | (site < 65536)
}

// Whether every operand is in its range.
pub fn in_range(command: Command) -> bool
    ensures { result ≡ in_range command }
{
    match command {
        Command::Member { team: _, member } => member < 64,
        Command::End => true,
        Command::Region { team, size } => (1 <= team) & (1 <= size) & (size <= 64),
        Command::Barrier => true,
        Command::Acquire(lock) => lock < 64,
        Command::Release(lock) => lock < 64,
        Command::Access(access) => site_ok(access.wide, access.site) & range_ok(access.range),
        Command::Cut => true,
    }
}

// The number of two bytes at a position, low byte first.
#[tactic(auto, unfolding(crate::specs::Commands::number_at))]
fn two_bytes(bytes: &[u8], at: usize) -> u16
    requires { at + 2 ≤ length bytes.now }
    ensures { result ≡ number_at 2 bytes.now at }
{
    u16::from_le_bytes([bytes[at], bytes[at + 1]])
}

// The number of four bytes at a position, low byte first.
#[tactic(auto, unfolding(crate::specs::Commands::number_at))]
pub fn four_bytes(bytes: &[u8], at: usize) -> u32
    requires { at + 4 ≤ length bytes.now }
    ensures { result ≡ number_at 4 bytes.now at }
{
    u32::from_le_bytes([bytes[at], bytes[at + 1], bytes[at + 2], bytes[at + 3]])
}

fn cut_off(place: usize) -> Result<Taken, Refusal>
    ensures { answer_of result ≡ refuses 3 place }
{
    Err(Refusal {
        place,
        cause: Cause::OperandsCutOff,
    })
}

// MEMBER and REGION have operands of the same widths, and so have ACQUIRE and RELEASE. With a flag that tells two of them apart as the program runs, check
// took up to twice the time, since the compiler kept the function apart from the loop of the scan; a const parameter is gone by then.
fn decode_team<const BYTE: u8>(bytes: &[u8], position: usize) -> Result<Taken, Refusal>
    requires stands { StandsAt bytes.now position BYTE }
    requires of_team { (BYTE ≡ 0x01) ⊎ (BYTE ≡ 0x10) }
    ensures { answer_of result ≡ decode_at bytes.now position }
{
    if bytes.len() - position < 4 {
        return cut_off(position);
    }
    let team = two_bytes(bytes, position + 1);
    let last = bytes[position + 3];
    let next = position + 4;
    if BYTE == MEMBER {
        let command = Command::Member { team, member: last };
        return Ok(Taken { next, command });
    }
    let command = Command::Region { team, size: last };
    Ok(Taken { next, command })
}

fn decode_lock<const BYTE: u8>(bytes: &[u8], position: usize) -> Result<Taken, Refusal>
    requires stands { StandsAt bytes.now position BYTE }
    requires of_lock { (BYTE ≡ 0x20) ⊎ (BYTE ≡ 0x21) }
    ensures { answer_of result ≡ decode_at bytes.now position }
{
    if bytes.len() - position < 2 {
        return cut_off(position);
    }
    let lock = bytes[position + 1];
    let next = position + 2;
    if BYTE == ACQUIRE {
        let command = Command::Acquire(lock);
        return Ok(Taken { next, command });
    }
    let command = Command::Release(lock);
    Ok(Taken { next, command })
}

// The kind of an access of the narrow group by its command byte. Stays a function of any byte, and no TryFrom: callers have tested the byte.
#[tactic(auto, unfolding(crate::specs::Commands::kind_of))]
pub fn kind_of(byte: u8) -> AccessKind
    ensures { result ≡ kind_of byte }
{
    match byte {
        0x30 => AccessKind::Read,
        0x31 => AccessKind::Write,
        0x32 => AccessKind::AtomicRead,
        _ => AccessKind::AtomicWrite,
    }
}

// The site of an access, which has 4 bytes in the wide group and 2 in the narrow one.
fn site_at(bytes: &[u8], at: usize, wide: bool) -> u32
    requires { at + 4 ≤ length bytes.now }
    ensures { result ≡ number_at (cond wide 4 2) bytes.now at }
{
    if wide {
        return four_bytes(bytes, at);
    }
    two_bytes(bytes, at) as u32
}

// The access at a position, of which the position after it and the group are known. What stands behind the site is read from the end of the access.
fn decode_operands(bytes: &[u8], position: usize, next: usize, wide: bool) -> Result<Taken, Refusal>
    requires { AccessTo bytes.now position next wide }
    ensures { answer_of result ≡ decode_at bytes.now position }
{
    let kind = kind_of(bytes[position] % 8 + 0x30);
    let site = site_at(bytes, position + 1, wide);
    let base = four_bytes(bytes, next - 9);
    let stride = two_bytes(bytes, next - 5);
    let count = two_bytes(bytes, next - 3);
    let size = bytes[next - 1];
    let range = Range {
        base,
        stride,
        count,
        size,
    };
    let access = Access {
        kind,
        wide,
        site,
        range,
    };
    Ok(Taken {
        next,
        command: Command::Access(access),
    })
}

// An access of either group. Both stand in one arm below: where this is called twice in a match, the compiler keeps it apart from both callers, and
// reading an access takes five times as long.
fn decode_access(bytes: &[u8], position: usize) -> Result<Taken, Refusal>
    requires { AccessAt bytes.now position }
    ensures { answer_of result ≡ decode_at bytes.now position }
{
    if 0x38 <= bytes[position] {
        if bytes.len() - position < 14 {
            return cut_off(position);
        }
        return decode_operands(bytes, position, position + 14, true);
    }
    if bytes.len() - position < 12 {
        return cut_off(position);
    }
    decode_operands(bytes, position, position + 12, false)
}

// The command at a position, its operands of any value, and the position after it: 18, 2 and 3 are tested.
pub fn decode_command(bytes: &[u8], position: usize) -> Result<Taken, Refusal>
    ensures { answer_of result ≡ decode_at bytes.now position }
{
    if bytes.len() <= position {
        return Err(Refusal {
            place: position,
            cause: Cause::PastEnd,
        });
    }
    match bytes[position] {
        MEMBER => decode_team::<MEMBER>(bytes, position),
        END => Ok(Taken {
            next: position + 1,
            command: Command::End,
        }),
        CUT => Ok(Taken {
            next: position + 1,
            command: Command::Cut,
        }),
        REGION => decode_team::<REGION>(bytes, position),
        BARRIER => Ok(Taken {
            next: position + 1,
            command: Command::Barrier,
        }),
        ACQUIRE => decode_lock::<ACQUIRE>(bytes, position),
        RELEASE => decode_lock::<RELEASE>(bytes, position),
        0x30..=0x33 | 0x38..=0x3b => decode_access(bytes, position),
        _ => Err(Refusal {
            place: position,
            cause: Cause::UnknownCommand,
        }),
    }
}

// 5: what was decoded at a position, if its operands are in range.
fn accept(reading: Result<Taken, Refusal>, position: usize) -> Result<Taken, Refusal>
    ensures { answer_of result ≡ when_given (answer_of reading) (ranged position) }
{
    let taken = reading?;
    if !in_range(taken.command) {
        return Err(Refusal {
            place: position,
            cause: Cause::OutOfRange,
        });
    }
    Ok(taken)
}

// The command at a position, its operands in range, and the position after it. It has a match of its own, so that the scan alone calls
// `decode_command`, which is then compiled into the scan's loop: check takes a third of the time.
pub fn read_command(bytes: &[u8], position: usize) -> Result<Taken, Refusal>
    ensures { answer_of result ≡ read_at bytes.now position }
{
    if bytes.len() <= position {
        return Err(Refusal {
            place: position,
            cause: Cause::PastEnd,
        });
    }
    match bytes[position] {
        MEMBER => accept(decode_team::<MEMBER>(bytes, position), position),
        END => Ok(Taken {
            next: position + 1,
            command: Command::End,
        }),
        CUT => Ok(Taken {
            next: position + 1,
            command: Command::Cut,
        }),
        REGION => accept(decode_team::<REGION>(bytes, position), position),
        BARRIER => Ok(Taken {
            next: position + 1,
            command: Command::Barrier,
        }),
        ACQUIRE => accept(decode_lock::<ACQUIRE>(bytes, position), position),
        RELEASE => accept(decode_lock::<RELEASE>(bytes, position), position),
        0x30..=0x33 | 0x38..=0x3b => accept(decode_access(bytes, position), position),
        _ => Err(Refusal {
            place: position,
            cause: Cause::UnknownCommand,
        }),
    }
}

// A command's bytes: the first ones of `bytes`, as many as `length` says. Stays an array with a length: nothing here is on the heap.
#[derive(Clone, Copy)]
struct Encoded {
    bytes: [u8; 14],
    length: usize,
}

fn encode_plain(byte: u8) -> Encoded
    ensures { Holds result (byte ∷ []) }
{
    Encoded {
        bytes: [byte, 0, 0, 0, 0, 0, 0, 0, 0, 0, 0, 0, 0, 0],
        length: 1,
    }
}

fn encode_lock(byte: u8, lock: u8) -> Encoded
    ensures { Holds result (byte ∷ operand_bytes (1 ∷ []) (lock ∷ [])) }
{
    Encoded {
        bytes: [byte, lock, 0, 0, 0, 0, 0, 0, 0, 0, 0, 0, 0, 0],
        length: 2,
    }
}

fn encode_team(byte: u8, team: u16, last: u8) -> Encoded
    ensures { Holds result (byte ∷ operand_bytes (2 ∷ 1 ∷ []) (team ∷ last ∷ [])) }
{
    let [team_0, team_1] = team.to_le_bytes();
    Encoded {
        bytes: [byte, team_0, team_1, last, 0, 0, 0, 0, 0, 0, 0, 0, 0, 0],
        length: 4,
    }
}

// The command byte of an access.
#[tactic(auto, unfolding(crate::specs::Commands::access_byte))]
pub fn access_byte(wide: bool, kind: AccessKind) -> u8
    ensures { result ≡ access_byte wide kind }
{
    let byte = u8::from(kind);
    if wide { byte + 8 } else { byte }
}

fn encode_access(access: Access) -> Encoded
    ensures { Holds result (bytes_of (Command.Access access)) }
{
    let byte = access_byte(access.wide, access.kind);
    let range = access.range;
    let [site_0, site_1, site_2, site_3] = access.site.to_le_bytes();
    let [base_0, base_1, base_2, base_3] = range.base.to_le_bytes();
    let [stride_0, stride_1] = range.stride.to_le_bytes();
    let [count_0, count_1] = range.count.to_le_bytes();
    let size = range.size;
    if access.wide {
        return Encoded {
            bytes: [
                byte, site_0, site_1, site_2, site_3, base_0, base_1, base_2, base_3, stride_0,
                stride_1, count_0, count_1, size,
            ],
            length: 14,
        };
    }
    Encoded {
        bytes: [
            byte, site_0, site_1, base_0, base_1, base_2, base_3, stride_0, stride_1, count_0,
            count_1, size, 0, 0,
        ],
        length: 12,
    }
}

fn encode(command: Command) -> Encoded
    ensures { Holds result (bytes_of command) }
{
    match command {
        Command::Member { team, member } => encode_team(MEMBER, team, member),
        Command::End => encode_plain(END),
        Command::Region { team, size } => encode_team(REGION, team, size),
        Command::Barrier => encode_plain(BARRIER),
        Command::Acquire(lock) => encode_lock(ACQUIRE, lock),
        Command::Release(lock) => encode_lock(RELEASE, lock),
        Command::Access(access) => encode_access(access),
        Command::Cut => encode_plain(CUT),
    }
}

// Puts the command's bytes into the buffer at a position.
pub fn put_command(command: Command, buffer: &mut [u8], position: usize) -> Result<usize, Refusal>
    ensures { put_at command buffer.old position ≡ record { answer = answer_of result; buffer = buffer.new } }
{
    if !in_range(command) {
        return Err(Refusal {
            place: position,
            cause: Cause::OutOfRange,
        });
    }
    let encoded = encode(command);
    let length = encoded.length;
    if buffer.len().saturating_sub(position) < length {
        return Err(Refusal {
            place: position,
            cause: Cause::DoesNotFit,
        });
    }
    copy_in(&encoded.bytes[..length], buffer, position);
    Ok(position + length)
}
