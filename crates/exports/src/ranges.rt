// The lowest byte that two ranges share, and the elements that cover it.
ghost use Rattle.std.specs.Prelude.{◌≡◌};
ghost use Rattle.order.specs.Ranges.{shared_of};
ghost use Rattle.exports.specs.Told.{range_of, shared_told};

use crate::told::{accepted, refused};
use bundle::command::Range;
use order::range::lowest_shared_byte;

// Whether two ranges share a byte, the lowest one, and the lowest element of each that covers it.
pub fn dezhakom_lowest_shared_byte(
    base: u32,
    stride: u16,
    count: u16,
    size: u8,
    other_base: u32,
    other_stride: u16,
    other_count: u16,
    other_size: u8,
    found: &mut u32,
    byte: &mut u32,
    element: &mut u32,
    other_element: &mut u32,
    place: &mut usize,
) -> u32
    ensures { shared_told (shared_of (range_of base stride count size) (range_of other_base other_stride other_count other_size)) ≡ record { number = result; place = place.new; answer = record { found = found.new; value = record { byte = byte.new; first_element = element.new; second_element = other_element.new } } } }
{
    let first = Range {
        base,
        stride,
        count,
        size,
    };
    let second = Range {
        base: other_base,
        stride: other_stride,
        count: other_count,
        size: other_size,
    };
    *found = 0;
    *byte = 0;
    *element = 0;
    *other_element = 0;
    match lowest_shared_byte(first, second) {
        Ok(Some(lowest)) => {
            *found = 1;
            *byte = lowest.byte;
            *element = lowest.first_element;
            *other_element = lowest.second_element;
            accepted(place)
        }
        Ok(None) => accepted(place),
        Err(refusal) => refused(refusal, place),
    }
}
