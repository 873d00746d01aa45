// The outcome of each bundle of a build, and the word of the build.
ghost use Rattle.std.specs.Prelude.{◌≡◌};
ghost use Rattle.bundle.specs.Answer.{answer_of};
ghost use Rattle.tray.specs.Words.{outcome_of, word_for, after_outcome, Onward};

use bundle::refusal::Refusal;
use verdict::race::Judgement;

// Of one bundle. One that is turned away or could not be read is refused.
#[derive(Clone, Copy, PartialEq, Eq)]
pub enum Outcome {
    Race,
    RaceFree,
    Refused,
}

// Of a build: of the bundles that were judged so far. One bundle more can only lead further down.
#[derive(Clone, Copy, PartialEq, Eq, PartialOrd, Ord)]
pub enum Word {
    Missing,
    RaceFree,
    Refused,
    Race,
}

// The outcome of a bundle that was read.
pub fn outcome_of(judged: Result<Judgement, Refusal>) -> Outcome
    ensures { result ≡ outcome_of (answer_of judged) }
{
    match judged {
        Ok(judgement) => match judgement.least {
            None => Outcome::RaceFree,
            Some(_) => Outcome::Race,
        },
        Err(_) => Outcome::Refused,
    }
}

impl From<Outcome> for Word {
    ghost from_gives = { λ outcome word. word ≡ word_for outcome };

    fn from(outcome: Outcome) -> Word {
        match outcome {
            Outcome::Race => Word::Race,
            Outcome::RaceFree => Word::RaceFree,
            Outcome::Refused => Word::Refused,
        }
    }
}

// The word of a build after one bundle more: the later of the two in the order of `Word`.
pub fn after(word: Word, outcome: Outcome) -> Word
    ensures value { result ≡ after_outcome word outcome }
    ensures build { Onward word outcome result }
{
    word.max(Word::from(outcome))
}
