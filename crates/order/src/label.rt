// Offset-span labels and their comparison.
ghost use Rattle.std.specs.Prelude.{◌≡◌, true, ◌≤◌, ◌<◌, [], length, position, IfSome};
ghost use Rattle.std.specs.List.{zip};
ghost use Rattle.bundle.specs.Lists.{all};
ghost use Rattle.bundle.specs.Answer.{answer_of};
ghost use Rattle.order.specs.Climbing.{extended};
ghost use Rattle.order.specs.Labels.{counted, holding, differs, span_ok, label_ok, compare_triples, compare_from, compare_of};

use bundle::refusal::{Cause, Refusal};
use std::cmp::Ordering;

// One level of a label.
#[derive(Clone, Copy, PartialEq, Eq)]
pub struct Triple {
    pub offset: u32,
    pub span: u32,
    pub interval: u32,
}

// The first `count` triples are the label, the root's first; those past the count are not looked at.
// Stays an array with a count beside it: `compare` is given labels of 0 or over 5 triples too, and refuses them (`compare_of`).
#[derive(Clone, Copy)]
pub struct Label {
    pub count: u32,
    pub triples: [Triple; 5],
}

impl Label {
    // The label without triples; past a label's count all is 0.
    #[tactic(auto, unfolding(crate::specs::Labels::holding, crate::specs::Labels::blank))]
    pub fn empty() -> Self
        ensures { result ≡ holding [] }
    {
        let blank = Triple {
            offset: 0,
            span: 0,
            interval: 0,
        };
        Label {
            count: 0,
            triples: [blank; 5],
        }
    }

    // The label with one triple more.
    #[tactic(auto, unfolding(crate::specs::Climbing::extended))]
    pub(crate) fn with(self, triple: Triple) -> Self
        requires { self.count < 5 }
        ensures { result ≡ extended self triple }
    {
        let mut triples = self.triples;
        triples[self.count as usize] = triple;
        Label {
            count: self.count + 1,
            triples,
        }
    }

    // The label's own triples.
    #[tactic(auto, unfolding(crate::specs::Labels::counted))]
    fn counted(&self) -> &[Triple]
        requires { self.now.count ≤ 5 }
        ensures { result.now ≡ counted self.now }
    {
        &self.triples[..self.count as usize]
    }
}

// How the first of two labels stands to the second.
#[derive(Clone, Copy, PartialEq, Eq)]
pub enum Order {
    Same,
    Before,
    After,
    Concurrent,
}

// Whether a span is 1 to 64.
#[tactic(auto, unfolding(crate::specs::Labels::span_ok))]
fn span_ok(triple: &Triple) -> bool
    ensures { result ≡ span_ok triple.now }
{
    (1 <= triple.span) & (triple.span <= 64)
}

// Whether every counted span is 1 to 64.
fn spans_ok(label: Label) -> bool
    requires { label.count ≤ 5 }
    ensures { result ≡ all span_ok (counted label) }
{
    label.counted().iter().all(span_ok)
}

// Whether a label has 1 to 5 triples, each span in its range, and the first span 1.
#[tactic(auto, using(crate::proofs::Comparing::label_tests))]
fn label_ok(label: Label) -> bool
    ensures { result ≡ label_ok label }
{
    1 <= label.count && label.count <= 5 && spans_ok(label) && label.triples[0].span == 1
}

// Two labels by the first triples in which they differ, which have this number.
#[tactic(auto, unfolding(crate::specs::Labels::compare_triples))]
fn compare_triples(number: usize, first: Triple, second: Triple) -> Result<Order, Refusal>
    requires { 1 ≤ first.span }
    ensures { answer_of result ≡ compare_triples number first second }
{
    let span = first.span;
    if span != second.span {
        return Err(Refusal {
            place: number,
            cause: Cause::UnequalSpans,
        });
    }
    if first.interval < second.interval {
        return Ok(Order::Before);
    }
    if second.interval < first.interval {
        return Ok(Order::After);
    }
    if first.offset % span != second.offset % span {
        return Ok(Order::Concurrent);
    }
    if first.offset < second.offset {
        return Ok(Order::Before);
    }
    Ok(Order::After)
}

// The number of the first triples that differ.
#[tactic(auto, unfolding(crate::specs::Labels::same_triple))]
fn first_difference(firsts: &[Triple], seconds: &[Triple]) -> Option<usize>
    ensures first { result ≡ position differs (zip firsts.now seconds.now) }
    ensures within { IfSome result (λ number. (number < length firsts.now) × (number < length seconds.now)) }
{
    firsts.iter().zip(seconds).position(|(a, b)| a != b)
}

// Two labels that are not refused: by their first triples that differ, else by their lengths.
#[tactic(auto, using(crate::proofs::Comparing::few))]
fn compare_counted(first: Label, second: Label) -> Result<Order, Refusal>
    requires { (label_ok first ≡ true) × (label_ok second ≡ true) }
    ensures { answer_of result ≡ compare_from 0 (counted first) (counted second) }
{
    let firsts = first.counted();
    let seconds = second.counted();
    match first_difference(firsts, seconds) {
        Some(number) => compare_triples(number, firsts[number], seconds[number]),
        None => match firsts.len().cmp(&seconds.len()) {
            Ordering::Less => Ok(Order::Before),
            Ordering::Equal => Ok(Order::Same),
            Ordering::Greater => Ok(Order::After),
        },
    }
}

// How the first label stands to the second: 15 for a bad label, at 1 or 2; then 16 for unequal spans, at the triple's number.
#[tactic(auto, unfolding(crate::specs::Labels::compare_of))]
pub fn compare(first: Label, second: Label) -> Result<Order, Refusal>
    ensures { answer_of result ≡ compare_of first second }
{
    if !label_ok(first) {
        return Err(Refusal {
            place: 1,
            cause: Cause::BadLabel,
        });
    }
    if !label_ok(second) {
        return Err(Refusal {
            place: 2,
            cause: Cause::BadLabel,
        });
    }
    compare_counted(first, second)
}
