// The label of a segment, and the comparison of two labels, as sixteen words each.
ghost use Rattle.std.specs.Prelude.{◌≡◌};
ghost use Rattle.order.specs.Labels.{label_of, compare_of};
ghost use Rattle.exports.specs.LabelWords.{label_from, label_told, order_told};

// The label of a member's segment; its triples past the count are 0.
#[unsafe(no_mangle)]
pub extern "C" fn dezhakom_label_of_segment(
    bytes: &[u8],
    team: u16,
    member: u8,
    segment: u32,
    label: &mut [u32; 16],
    place: &mut usize,
) -> u32
    ensures { label_told (label_of bytes.now team member segment) ≡ record { number = result; place = place.new; answer = label.new } }
{
    exports::labels::dezhakom_label_of_segment(bytes, team, member, segment, label, place)
}

// How the first label stands to the second.
#[unsafe(no_mangle)]
pub extern "C" fn dezhakom_compare_labels(
    first: &[u32; 16],
    second: &[u32; 16],
    order: &mut u32,
    place: &mut usize,
) -> u32
    ensures { order_told (compare_of (label_from first.now) (label_from second.now)) ≡ record { number = result; place = place.new; answer = order.new } }
{
    exports::labels::dezhakom_compare_labels(first, second, order, place)
}
