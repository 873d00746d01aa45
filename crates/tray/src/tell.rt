// One file of a build: the build's word after it, and its line at a position of a lent buffer.
ghost use Rattle.std.specs.Prelude.{◌≡◌};
ghost use Rattle.bundle.specs.Answer.{answer_of};
ghost use Rattle.verdict.specs.Judge.{judge_of};
ghost use Rattle.tray.specs.Telling.{judged_told, unreadable_told};

use crate::line::{put_bundle, put_unreadable};
use crate::word::{Outcome, Word, after, outcome_of};
use bundle::refusal::Refusal;
use verdict::judge::judge;

// The build's word so far, and where the line ends.
#[derive(Clone, Copy)]
pub struct Told {
    pub word: Word,
    pub line: Result<usize, Refusal>,
}

// A file that was read: its bytes are judged.
pub fn tell_bundle(
    bytes: &[u8],
    word: Word,
    work: &mut [u32],
    buffer: &mut [u8],
    position: usize,
) -> Told
    ensures { judged_told (judge_of bytes.now work.old) word buffer.old position ≡ record { told = record { word = result.word; line = answer_of result.line; buffer = buffer.new }; work = work.new } }
{
    let judged = judge(bytes, work);
    Told {
        word: after(word, outcome_of(judged)),
        line: put_bundle(judged, buffer, position),
    }
}

// A file that could not be read.
pub fn tell_unreadable(word: Word, buffer: &mut [u8], position: usize) -> Told
    ensures { unreadable_told word buffer.old position ≡ record { word = result.word; line = answer_of result.line; buffer = buffer.new } }
{
    Told {
        word: after(word, Outcome::Refused),
        line: put_unreadable(buffer, position),
    }
}
