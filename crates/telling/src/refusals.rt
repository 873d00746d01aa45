// A refusal as a line, on standard error or wherever the caller says.
use bundle::refusal::Refusal;
use text::line::Line;

// A write that fails changes nothing else.
pub fn print_refused<P: Print>(to: &P, refusal: Refusal) {
    let mut line = Line::<96>::new();
    line.push_refused(u8::from(refusal.cause), refusal.place);
    let _ = to.write_all(line.text());
}
