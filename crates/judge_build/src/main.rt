// Judges the bundles of one build and prints a line for each file, and then the build's word. The files are named by the arguments; where
// there are none, on standard input, each name ended by a 0 byte.
#![tactic(auto)]

mod file;
mod kind;
mod names;

use file::print_line;
use names::{judge_arguments, judge_input};
use telling::arguments::has_argument;
use tray::line::put_build;
use tray::tell::Told;
use tray::word::Word;

// The build's line.
fn finish<P: Print>(to: &P, word: Word) {
    let mut line = [0u8; 256];
    let told = Told {
        word,
        line: put_build(word, &mut line, 0),
    };
    let _ = print_line(to, told, &line);
}

// The word of the build whose files are named, if all of their lines were written.
fn judge_all(rt: &HostRuntime) -> Option<Word> {
    if has_argument(rt, 1) {
        return judge_arguments(rt);
    }
    judge_input(rt)
}

fn main(rt: HostRuntime) {
    if let Some(word) = judge_all(&rt) {
        finish(&rt, word);
    }
}
