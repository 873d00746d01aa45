// The label of a segment, and the comparison of two labels. A label is sixteen words: how many triples it has, and offset, span and interval of each of five.
ghost use Rattle.std.specs.Prelude.{◌≡◌, ◌≤◌};
ghost use Rattle.order.specs.Labels.{label_of, compare_of};
ghost use Rattle.exports.specs.LabelWords.{label_words, triple_at, label_from, order_number, label_told, order_told};

use crate::told::{accepted, refused};
use order::climb::label_of_segment;
use order::label::{Label, Order, Triple, compare};

fn label_words(label: Label) -> [u32; 16]
    ensures { result ≡ label_words label }
{
    let [a, b, c, d, e] = label.triples;
    [
        label.count,
        a.offset,
        a.span,
        a.interval,
        b.offset,
        b.span,
        b.interval,
        c.offset,
        c.span,
        c.interval,
        d.offset,
        d.span,
        d.interval,
        e.offset,
        e.span,
        e.interval,
    ]
}

// The label of a member's segment; its triples past the count are 0.
pub fn dezhakom_label_of_segment(
    bytes: &[u8],
    team: u16,
    member: u8,
    segment: u32,
    label: &mut [u32; 16],
    place: &mut usize,
) -> u32
    ensures { label_told (label_of bytes.now team member segment) ≡ record { number = result; place = place.new; answer = label.new } }
{
    match label_of_segment(bytes, team, member, segment) {
        Ok(found) => {
            *label = label_words(found);
            accepted(place)
        }
        Err(refusal) => {
            *label = [0; 16];
            refused(refusal, place)
        }
    }
}

// The triple in the three words from an index.
fn triple_at(words: &[u32; 16], i: usize) -> Triple
    requires { i ≤ 13 }
    ensures { result ≡ triple_at words.now i }
{
    Triple {
        offset: words[i],
        span: words[i + 1],
        interval: words[i + 2],
    }
}

fn label_from(words: &[u32; 16]) -> Label
    ensures { result ≡ label_from words.now }
{
    Label {
        count: words[0],
        triples: [
            triple_at(words, 1),
            triple_at(words, 4),
            triple_at(words, 7),
            triple_at(words, 10),
            triple_at(words, 13),
        ],
    }
}

fn order_number(order: Order) -> u32
    ensures { result ≡ order_number order }
{
    match order {
        Order::Same => 0,
        Order::Before => 1,
        Order::After => 2,
        Order::Concurrent => 3,
    }
}

// How the first label stands to the second.
pub fn dezhakom_compare_labels(
    first: &[u32; 16],
    second: &[u32; 16],
    order: &mut u32,
    place: &mut usize,
) -> u32
    ensures { order_told (compare_of (label_from first.now) (label_from second.now)) ≡ record { number = result; place = place.new; answer = order.new } }
{
    match compare(label_from(first), label_from(second)) {
        Ok(found) => {
            *order = order_number(found);
            accepted(place)
        }
        Err(refusal) => {
            *order = 0;
            refused(refusal, place)
        }
    }
}
