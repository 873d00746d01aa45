// The lowest byte that two ranges share, and the elements that cover it.
ghost use Rattle.std.specs.Prelude.{◌≡◌, true, ◌||◌, eqb, ◌+◌, ◌-◌, ◌*◌, ◌≤◌, ◌<◌};
ghost use Rattle.bundle.specs.Commands.{range_ok};
ghost use Rattle.bundle.specs.Lists.{option_of};
ghost use Rattle.order.specs.Ranges.{shared_byte, overlap_of, shared_of, sharing_of};
ghost use Rattle.order.specs.Pairs.{
  touches_some,
  FirstFrom,
  FirstPair,
  PairGiven,
  InOrder,
  element_from,
  element_by,
  pair_meeting,
  MeetingOf,
  turned_over,
};

use bundle::command::{Range, range_ok};
use bundle::refusal::{Cause, Refusal};

// The lowest byte that two ranges share, and the lowest element of each that covers it.
#[derive(Clone, Copy)]
pub struct Overlap {
    pub byte: u32,
    pub first_element: u32,
    pub second_element: u32,
}

// The same in the search, where the byte has 64 bits: a range of any field values may pass byte 4,294,967,295.
#[derive(Clone, Copy)]
struct Meeting {
    byte: u64,
    one: u32,
    other: u32,
}

// An element of each of two ranges. Element numbers have 32 bits in the search; positions and products have 64.
#[derive(Clone, Copy)]
struct ElementPair {
    one: u32,
    other: u32,
}

// The first element that starts at or past low.
fn first_from(stride: u64, low: u64) -> u32
    requires { (1 ≤ stride) × (stride < 65536) × (low ≤ 65535 * stride) }
    ensures { FirstFrom stride low result }
{
    ((low + (stride - 1)) / stride) as u32
}

// The least elements, `one` below count and `other` below limit, whose starts lie near each other:
// `other * spacing + low <= one * stride <= other * spacing + high`. Spacing and limit are the other range's stride and
// count. Where no multiple of the stride lies from low to high, only the spacing's remainder counts, and the two ranges
// change places: Euclid's algorithm, which stops once an element passes its count.
fn first_pair(
    stride: u64,
    spacing: u64,
    low: u64,
    high: u64,
    count: u32,
    limit: u32,
) -> Option<ElementPair>
    requires { PairGiven stride spacing low high count limit }
    ensures { FirstPair stride spacing low high count limit result }
{
    if (count - 1) as u64 * stride < low {
        return None;
    }
    let element = first_from(stride, low);
    let start = element as u64 * stride;
    if start <= high {
        return Some(ElementPair {
            one: element,
            other: 0,
        });
    }
    let inner = first_pair(
        spacing % stride,
        stride,
        start - high,
        start - low,
        limit,
        count - element,
    );
    // By its fields: taken whole, as by `?`, the pair stays packed in one word, and lowest_shared_byte took up to a quarter longer.
    let Some(ElementPair { one, other }) = inner else {
        return None;
    };
    let sum = (element + other) as u64 + spacing / stride * (one as u64);
    if sum < count as u64 {
        return Some(ElementPair {
            one: sum as u32,
            other: one,
        });
    }
    None
}

// Where an element of a range starts.
fn start_of(range: Range, element: u32) -> u64
    ensures { result ≡ range.base + element * range.stride }
{
    range.base as u64 + element as u64 * (range.stride as u64)
}

// The lowest byte that both elements of a pair touch, and the pair.
#[tactic(auto, unfolding(crate::specs::Pairs::pair_meeting))]
fn meeting_of_pair(pair: Option<ElementPair>, lower: Range, upper: Range) -> Option<Meeting>
    ensures { result ≡ pair_meeting pair lower upper }
{
    let Some(ElementPair { one, other }) = pair else {
        return None;
    };
    Some(Meeting {
        byte: start_of(lower, one).max(start_of(upper, other)),
        one,
        other,
    })
}

// The lowest byte that both ranges touch, the one with the lower base first, with the lowest element of each that covers it: those of the first
// pair of elements that share a byte, since a lower element that covered the byte would make a pair before it.
fn meet_in_order(lower: Range, upper: Range) -> Option<Meeting>
    requires { InOrder lower upper }
    ensures { MeetingOf lower upper result }
{
    let distance = (upper.base - lower.base) as u64;
    if distance < lower.size as u64 {
        return Some(Meeting {
            byte: upper.base as u64,
            one: 0,
            other: 0,
        });
    }
    let low = distance - (lower.size as u64 - 1);
    let high = distance + (upper.size as u64 - 1);
    let pair = first_pair(
        lower.stride as u64,
        upper.stride as u64,
        low,
        high,
        lower.count as u32,
        upper.count as u32,
    );
    meeting_of_pair(pair, lower, upper)
}

// Whether a range touches any byte.
fn touches_some(range: Range) -> bool
    ensures { result ≡ touches_some range }
{
    (1 <= range.count) & (1 <= range.size)
}

// The lowest byte that both ranges touch, whether or not the format allows the ranges.
pub fn shared_byte(first: Range, second: Range) -> Option<u64>
    ensures { option_of result ≡ shared_byte first second }
{
    if !touches_some(first) {
        return None;
    }
    if !touches_some(second) {
        return None;
    }
    if first.base <= second.base {
        return meet_in_order(first, second).map(|meeting| meeting.byte);
    }
    meet_in_order(second, first).map(|meeting| meeting.byte)
}

// Whether a range has no element but element 0, or none at all.
fn only_first(end: u64, stride: u16) -> bool
    ensures { result ≡ (eqb stride 0 || eqb end 0) }
{
    (stride == 0) | (end == 0)
}

// The lowest element that covers a byte which a range touches, by the end of its element 0 and its stride.
#[tactic(auto, unfolding(crate::specs::Pairs::element_from))]
pub fn element_from(end: u64, stride: u16, byte: u32) -> u32
    ensures { result ≡ element_from end stride byte }
{
    if (byte as u64) < end {
        return 0;
    }
    if only_first(end, stride) {
        return 0;
    }
    (byte as u64 - end) as u32 / (stride as u32) + 1
}

// The lowest element of a range that covers a byte which it touches.
pub fn element_at(range: Range, byte: u32) -> u32
    ensures { result ≡ element_by range byte }
{
    element_from(range.base as u64 + range.size as u64, range.stride, byte)
}

// The lowest shared byte of two ranges that are in range, the one with the lower base first.
fn shared_upward(lower: Range, upper: Range) -> Option<Overlap>
    requires { (range_ok lower ≡ true) × (range_ok upper ≡ true) × (lower.base ≤ upper.base) }
    ensures { option_of result ≡ overlap_of lower upper }
{
    let meeting = meet_in_order(lower, upper)?;
    Some(Overlap {
        byte: meeting.byte as u32,
        first_element: meeting.one,
        second_element: meeting.other,
    })
}

// The same for the two ranges in the other order.
fn turned(overlap: Overlap) -> Overlap
    ensures { result ≡ turned_over overlap }
{
    Overlap {
        byte: overlap.byte,
        first_element: overlap.second_element,
        second_element: overlap.first_element,
    }
}

// The lowest shared byte of two ranges that are in range.
fn shared_of_valid(first: Range, second: Range) -> Option<Overlap>
    requires { (range_ok first ≡ true) × (range_ok second ≡ true) }
    ensures { option_of result ≡ overlap_of first second }
{
    if first.base <= second.base {
        return shared_upward(first, second);
    }
    shared_upward(second, first).map(turned)
}

// The lowest byte that both ranges touch, with the lowest element of each that covers it, or that there is none; 5 at 1 or 2 for the first bad
// range.
#[tactic(auto, unfolding(crate::specs::Ranges::shared_of))]
pub fn lowest_shared_byte(first: Range, second: Range) -> Result<Option<Overlap>, Refusal>
    ensures { sharing_of result ≡ shared_of first second }
{
    if !range_ok(first) {
        return Err(Refusal {
            place: 1,
            cause: Cause::OutOfRange,
        });
    }
    if !range_ok(second) {
        return Err(Refusal {
            place: 2,
            cause: Cause::OutOfRange,
        });
    }
    Ok(shared_of_valid(first, second))
}
