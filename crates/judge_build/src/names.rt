// The names of a build's files: the arguments, or standard input.
use crate::file::judge_file;
use std::io::Read;
use telling::arguments::{argument, has_argument};
use tray::word::Word;

// An argument that is longer than a path may be is taken for an empty one: neither is the name of a file.
fn judge_argument(rt: &HostRuntime, number: usize, word: Word) -> Option<Word> {
    let mut name = [0u8; 4096];
    let size = argument(rt, number, &mut name);
    judge_file(rt, &name[..size], word)
}

pub fn judge_arguments(rt: &HostRuntime) -> Option<Word> {
    let mut word = Word::Missing;
    for number in 1..usize::MAX {
        if !has_argument(rt, number) {
            break;
        }
        word = judge_argument(rt, number, word)?;
    }
    Some(word)
}

// What standard input has given so far: the word of the files named, and how much of the next name is in the name buffer. A name that fills
// the buffer is longer than a path may be, and the rest of it is passed over. Stays a size beside the buffer: no heap, so no Vec.
#[derive(Clone, Copy)]
struct Naming {
    word: Word,
    size: usize,
}

// The file whose name is in the buffer.
fn judge_named(rt: &HostRuntime, name: &[u8], naming: Naming) -> Option<Word> {
    let size = naming.size.min(name.len());
    judge_file(rt, &name[..size], naming.word)
}

// One byte of standard input.
fn take_byte(rt: &HostRuntime, byte: u8, naming: Naming, name: &mut [u8]) -> Option<Naming> {
    let Naming { word, size } = naming;
    if byte == 0 {
        let word = judge_named(rt, name, naming)?;
        return Some(Naming { word, size: 0 });
    }
    if size < name.len() {
        name[size] = byte;
        return Some(Naming {
            word,
            size: size + 1,
        });
    }
    Some(naming)
}

fn take_bytes(
    rt: &HostRuntime,
    bytes: &[u8],
    mut naming: Naming,
    name: &mut [u8],
) -> Option<Naming> {
    for byte in bytes {
        naming = take_byte(rt, *byte, naming, name)?;
    }
    Some(naming)
}

// Reads all names, so far as they are ended by a 0 byte. Where a read fails the names are not known. The loop counts its turns, up to a
// number that no run uses up.
fn take_names(rt: &HostRuntime, name: &mut [u8]) -> Option<Naming> {
    let mut block = [0u8; 65536];
    let mut naming = Naming {
        word: Word::Missing,
        size: 0,
    };
    for _ in 0..u64::MAX {
        let count = rt.stdin().read(&mut block).ok()?;
        if count == 0 {
            return Some(naming);
        }
        naming = take_bytes(rt, &block[..count], naming, name)?;
    }
    None
}

// The last name's 0 byte may be missing.
pub fn judge_input(rt: &HostRuntime) -> Option<Word> {
    let mut name = [0u8; 4096];
    let naming = take_names(rt, &mut name)?;
    if naming.size == 0 {
        return Some(naming.word);
    }
    judge_named(rt, &name, naming)
}
