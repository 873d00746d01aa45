// The lines of the program judge_build, each put at a position of a lent buffer. That of a judgement is the lines of racelist behind each
// other, with a space for each line end but the last.
ghost use Rattle.std.specs.Prelude.{◌≡◌};
ghost use Rattle.bundle.specs.Answer.{answer_of};
ghost use Rattle.text.specs.Lines.{printed_at};
ghost use Rattle.tray.specs.Texts.{verdict_line, bundle_line, unreadable_line, build_line};

use crate::word::Word;
use bundle::refusal::Refusal;
use text::line::Line;
use text::lines::{put_line, put_refused};
use verdict::race::Judgement;

// The line of a judgement.
fn judged_line(judgement: Judgement) -> Line<256>
    ensures { result ≡ verdict_line judgement judgement.least }
{
    let mut line = Line::<256>::new();
    match judgement.least {
        None => {
            line.push_word(b"race-free ");
            line.push_counts(judgement.chunks, judgement.segments, judgement.accesses);
        }
        Some(race) => {
            line.push_word(b"race ");
            line.push_counts(judgement.chunks, judgement.segments, judgement.accesses);
            line.replace_last(b' ');
            line.push_race(race);
            line.replace_last(b' ');
            line.push_pairs(judgement.races);
        }
    }
    line
}

fn put_judged(judgement: Judgement, buffer: &mut [u8], position: usize) -> Result<usize, Refusal>
    ensures { printed_at (verdict_line judgement judgement.least) buffer.old position ≡ record { answer = answer_of result; buffer = buffer.new } }
{
    let line = judged_line(judgement);
    put_line(line.text(), buffer, position)
}

// The line of a bundle that was read.
pub fn put_bundle(
    judged: Result<Judgement, Refusal>,
    buffer: &mut [u8],
    position: usize,
) -> Result<usize, Refusal>
    ensures { printed_at (bundle_line (answer_of judged)) buffer.old position ≡ record { answer = answer_of result; buffer = buffer.new } }
{
    match judged {
        Ok(judgement) => put_judged(judgement, buffer, position),
        Err(refusal) => put_refused(u8::from(refusal.cause), refusal.place, buffer, position),
    }
}

// The line of a file that could not be read.
pub fn put_unreadable(buffer: &mut [u8], position: usize) -> Result<usize, Refusal>
    ensures { printed_at unreadable_line buffer.old position ≡ record { answer = answer_of result; buffer = buffer.new } }
{
    put_line(b"refused unreadable\n", buffer, position)
}

// The line of the build.
pub fn put_build(word: Word, buffer: &mut [u8], position: usize) -> Result<usize, Refusal>
    ensures { printed_at (build_line word) buffer.old position ≡ record { answer = answer_of result; buffer = buffer.new } }
{
    match word {
        Word::Missing => put_line(b"build missing\n", buffer, position),
        Word::RaceFree => put_line(b"build race-free\n", buffer, position),
        Word::Refused => put_line(b"build refused\n", buffer, position),
        Word::Race => put_line(b"build race\n", buffer, position),
    }
}
