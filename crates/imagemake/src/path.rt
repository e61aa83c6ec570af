//! The names of a path.

ghost use Rattle.std.specs.Prelude.{◌≡◌, is_some, position, ◌==◌};
ghost use Rattle.unixmodel.specs.Manifest.{names_in};

use imagerules::is_good_name;

// The index of the first slash.
pub fn first_slash(bytes: &[u8]) -> Option<usize>
    ensures { result ≡ position (λ b. b == 0x2f) bytes.now }
{
    bytes.iter().position(|b| *b == b'/')
}

// Whether a path begins with a slash, and has names with a slash between two.
pub fn is_path(path: &[u8]) -> bool
    ensures { result ≡ is_some (names_in path.now) }
{
    if path.is_empty() {
        return false;
    }
    if path[0] != b'/' {
        return false;
    }
    let mut at = 1;
    'name: while let Some(end) = first_slash(&path[at..]) {
        if !is_good_name(&path[at..at + end]) {
            return false;
        }
        at += end + 1;
    }
    is_good_name(&path[at..])
}
