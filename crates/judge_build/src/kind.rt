// Whether a name is of a regular file, and the path of a name.
ghost use Rattle.std.specs.Prelude.{◌≡◌, IfSome};
ghost use Rattle.judge_build.specs.Kind.{is_regular, path_of, IsEnded, IsTextOf};

use bundle::copy::copy_in;
use std::ffi::CStr;
use std::fs;
use std::os::unix::fs::MetadataExt;
use std::rt::Files;

// The bytes of the longest path, with the 0 byte that ends it.
pub const PATH_MAX: usize = 4096;

const LAST: usize = PATH_MAX - 1;

// Whether what was asked, where it was answered and gave this mode, is a regular file.
fn means_regular(mode: Option<u32>) -> bool
    ensures { result ≡ is_regular mode }
{
    match mode {
        Some(mode) => mode / 4096 % 16 == 8,
        None => false,
    }
}

// The text of a path, up to its first 0 byte, where it is text.
pub fn text_of(path: &[u8; PATH_MAX]) -> Option<&str>
    ensures { IfSome result (λ text. IsTextOf path.now text.now) }
{
    match CStr::from_bytes_until_nul(path) {
        Ok(named) => named.to_str().ok(),
        Err(_) => None,
    }
}

// The mode of the file of a path, or of what a link of that path leads to. Std has paths of text alone: of what is named by other bytes it
// cannot be asked.
fn mode_at<R: Files>(rt: &R, path: &[u8; PATH_MAX]) -> Option<u32>
    requires { IsEnded path.now }
{
    let text = text_of(path)?;
    let found = fs::metadata(rt, text).ok()?;
    Some(found.mode())
}

// A name as a path: its bytes, and then zeros. A longer one than a path may be is taken for an empty one: neither is the name of a file.
pub fn path_of(name: &[u8]) -> [u8; PATH_MAX]
    ensures path { result ≡ path_of name.now }
    ensures ended { IsEnded result }
{
    let mut path = [0u8; PATH_MAX];
    if name.len() >= PATH_MAX {
        return path;
    }
    copy_in(name, &mut path, 0);
    path[LAST] = 0;
    path
}

// Whether a name is of a regular file, or of a link to one.
pub fn is_regular<R: Files>(rt: &R, name: &[u8]) -> bool {
    let path = path_of(name);
    means_regular(mode_at(rt, &path))
}
