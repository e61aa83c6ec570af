//! The arguments of a program, as they lie on its stack.

ghost use Rattle.std.specs.Prelude.{◌≡◌, ◌*◌, ◌+◌, ◌<◌, ◌≤◌, ◌^◌, length, take, true};
ghost use Rattle.programs.specs.Passed.{Finishes, Passes, PassesOne, Pushes, PushesString, word_in};
ghost use Rattle.spaces.specs.Spaces.{has_space, view_at};
ghost use Rattle.unixmodel.specs.declared.trap.Access.TheVariants.{Load};
ghost use Rattle.unixmodel.specs.Memory.{overwrite, reach};
ghost use Rattle.unixmodel.specs.Numbers.{le};

use byteorder::{ByteOrder, LittleEndian};
use ram::FRAME_SIZE;
use spaces::Spaces;
use sv39::Translate;

// How many words of argv are read at most: one of them must be 0.
const WORDS: usize = 32;

/// The arguments of a program on its stack.
#[derive(Clone, Copy)]
pub struct Arguments {
    /// How many they are.
    pub count: u64,
    /// The address of their pointers, down to which the stack reaches.
    pub sp: u64,
    /// The bytes of the stack's page.
    pub page: [u8; FRAME_SIZE],
}

// The word of 8 bytes at an address of a slot; `None` where its program may not read it.
fn word_at<T: Translate>(spaces: &Spaces<T>, at: usize, address: u64) -> Option<u64>
    requires { has_space spaces.now at ≡ true }
    ensures { result ≡ word_in (reach Load (view_at spaces.now at).memory address) }
{
    let mut bytes = [0; 8];
    if !spaces.read(at, address, &mut bytes) {
        return None;
    }
    Some(LittleEndian::read_u64(&bytes))
}

// Pushes bytes on a stack that reaches down to `top` in its page, and returns their offset: a multiple of 16.
// `None`: there is no room for them.
fn push(page: &mut [u8; FRAME_SIZE], top: usize, bytes: &[u8]) -> Option<usize>
    requires { top ≤ 4096 }
    ensures { Pushes page.old page.new top bytes.now result }
{
    if top < bytes.len() {
        return None;
    }
    let place = (top - bytes.len()) / 16 * 16;
    page[place..place + bytes.len()].copy_from_slice(bytes);
    Some(place)
}

// Pushes the string at an address of a slot with its NUL, and returns its offset. `None`: its program may not read
// it, or there is no room for it.
fn push_string<T: Translate>(
    spaces: &Spaces<T>,
    at: usize,
    address: u64,
    page: &mut [u8; FRAME_SIZE],
    top: usize,
) -> Option<usize>
    requires space { has_space spaces.now at ≡ true }
    requires inside { top ≤ 4096 }
    ensures { PushesString (view_at spaces.now at).memory address page.old page.new top result }
{
    let mut string = [0; FRAME_SIZE];
    let Some(len) = spaces.copy_string(at, address, &mut string) else {
        return None;
    };
    if len == FRAME_SIZE {
        return None;
    }
    string[len] = 0;
    push(page, top, &string[..len + 1])
}

// Writes a pointer after those that are there.
fn put_pointer(pointers: &mut [u8; 8 * WORDS], n: usize, pointer: u64)
    requires { n < 32 }
    ensures { pointers.new ≡ overwrite pointers.old (8 * n) (le 8 pointer) }
{
    pointers[8 * n..8 * n + 8].copy_from_slice(&pointer.to_le_bytes());
}

// Pushes the pointers and the 0 word after them. `None`: there is no room for them.
fn finish(
    page: &[u8; FRAME_SIZE],
    top: usize,
    pointers: &[u8; 8 * WORDS],
    count: usize,
    base: u64,
) -> Option<Arguments>
    requires inside { top ≤ 4096 }
    requires few { count < 32 }
    requires fits { base + 4096 < 2 ^ 64 }
    ensures { Finishes page.now top (take (8 * count + 8) pointers.now) count base result }
{
    let mut page = *page;
    let Some(place) = push(&mut page, top, &pointers[..8 * count + 8]) else {
        return None;
    };
    Some(Arguments {
        count: count as u64,
        sp: base + place as u64,
        page,
    })
}

/// The arguments that argv points at in a slot, as they lie on the stack of a program whose segments have `pages`
/// pages.
/// `None` where there are more than 31, a word or a string can't be read, or the stack's page has no room for them.
pub fn read_arguments<T: Translate>(
    spaces: &Spaces<T>,
    at: usize,
    argv: u64,
    pages: u64,
) -> Option<Arguments>
    requires space { has_space spaces.now at ≡ true }
    requires fits { 4096 * (pages + 2) < 2 ^ 64 }
    ensures { Passes (view_at spaces.now at).memory argv pages result }
{
    spaces.pages_are_whole(at);
    let base = 4096 * (pages + 1);
    let mut page = [0; FRAME_SIZE];
    let mut top = FRAME_SIZE;
    let mut pointers = [0; 8 * WORDS];
    for i in 0..WORDS {
        let Some(word) = word_at(spaces, at, argv + 8 * i as u64) else {
            return None;
        };
        if word == 0 {
            return finish(&page, top, &pointers, i, base);
        }
        let Some(place) = push_string(spaces, at, word, &mut page, top) else {
            return None;
        };
        top = place;
        put_pointer(&mut pointers, i, base + top as u64);
    }
    None
}

/// A string, which these bytes are with its NUL, as the only argument: as it lies on the stack of a program whose
/// segments have `pages` pages. `None` where the stack's page has no room for it.
pub fn one_argument(bytes: &[u8], pages: u64) -> Option<Arguments>
    requires fits { 4096 * (pages + 2) < 2 ^ 64 }
    ensures { PassesOne bytes.now pages result }
{
    let base = FRAME_SIZE as u64 * (pages + 1);
    let mut page = [0; FRAME_SIZE];
    let mut pointers = [0; 8 * WORDS];
    let Some(top) = push(&mut page, FRAME_SIZE, bytes) else {
        return None;
    };
    put_pointer(&mut pointers, 0, base + top as u64);
    finish(&page, top, &pointers, 1, base)
}
