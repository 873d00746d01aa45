// One file of a build: it is read, judged, and its line printed. The answers are the build's word so far; None after a read of the names or a
// write has failed, since nothing can be said of the build then.
ghost use Rattle.std.specs.Prelude.{◌≡◌, ◌≤◌, IfSome, length};
ghost use Rattle.bundle.specs.Answer.{answer_of};
ghost use Rattle.tray.specs.Inner.{PutWithin};

use crate::kind::{is_regular, path_of, text_of};
use std::fs::File;
use std::os::unix::fs::FileExt;
use tray::tell::{Told, tell_bundle, tell_unreadable};
use tray::word::Word;

// Reads until the buffer is full or the file ends, and answers how much was read; None where a read fails. What has no positions, as a pipe,
// is not read.
fn read_file(file: &File, bytes: &mut [u8]) -> Option<usize>
    requires { length bytes.old ≡ 65537 }
    ensures { IfSome result (λ size. size ≤ length bytes.new) }
{
    let mut done = 0;
    // Stays a while: a turn goes on by as many bytes as were read.
    while done < bytes.len() {
        let more = file.read_at(&mut bytes[done..], done as u64).ok()?;
        if more == 0 {
            break;
        }
        done += more;
    }
    Some(done)
}

// Prints the line that was put at the start of an array.
pub fn print_line<P: Print>(to: &P, told: Told, line: &[u8]) -> Option<Word>
    requires { PutWithin (answer_of told.line) (length line.now) }
{
    let Ok(size) = told.line else {
        return None;
    };
    to.write_all(&line[..size]).ok()?;
    Some(told.word)
}

fn judge_bytes<P: Print>(to: &P, bytes: &[u8], word: Word) -> Option<Word> {
    let mut work = [0u32; 16384];
    let mut line = [0u8; 256];
    let told = tell_bundle(bytes, word, &mut work, &mut line, 0);
    print_line(to, told, &line)
}

fn pass_unreadable<P: Print>(to: &P, word: Word) -> Option<Word> {
    let mut line = [0u8; 256];
    let told = tell_unreadable(word, &mut line, 0);
    print_line(to, told, &line)
}

// One byte more than a bundle may have is read, so that a longer file is refused as too long.
fn judge_open<P: Print>(to: &P, file: File, word: Word) -> Option<Word> {
    let mut bytes = [0u8; 65537];
    let read = read_file(&file, &mut bytes);
    drop(file);
    match read {
        Some(size) => judge_bytes(to, &bytes[..size], word),
        None => pass_unreadable(to, word),
    }
}

// Opens the file of a name. Std has paths of text alone: what is named by other bytes cannot be opened.
fn open_read(rt: &HostRuntime, name: &[u8]) -> Option<File> {
    let path = path_of(name);
    let text = text_of(&path)?;
    File::open(rt, text).ok()
}

// The file of a name. One that cannot be opened, or read to its end, is unreadable; so is what is not a regular file. That is asked before
// the file is opened, since to open a named pipe is to wait for its writer.
pub fn judge_file(rt: &HostRuntime, name: &[u8], word: Word) -> Option<Word> {
    if !is_regular(rt, name) {
        return pass_unreadable(rt, word);
    }
    match open_read(rt, name) {
        Some(file) => judge_open(rt, file, word),
        None => pass_unreadable(rt, word),
    }
}
