//! Whether a path goes on from the end of another one by steps alone.
ghost use Rattle.std.specs.Prelude.{◌≡◌, ◌++◌, IfSome, true};
ghost use Rattle.orders.specs.Paths.{events_of, steps};

use orders::{Interrupt, Path, Piece};

// Whether two interrupts are the same.
fn is_same_interrupt(one: Interrupt, other: Interrupt) -> bool
    ensures { result ≡ true → one ≡ other }
{
    match (one, other) {
        (Interrupt::Tick, Interrupt::Tick) => true,
        (Interrupt::Key(byte), Interrupt::Key(other)) => byte == other,
        _ => false,
    }
}

// Whether two pieces are the same.
fn is_same_piece(one: Piece, other: Piece) -> bool
    ensures { result ≡ true → one ≡ other }
{
    one.steps == other.steps && is_same_interrupt(one.interrupt, other.interrupt)
}

// Whether two lists of pieces are the same.
fn are_same(pieces: &[Piece], others: &[Piece]) -> bool
    ensures { result ≡ true → pieces.now ≡ others.now }
{
    if pieces.len() != others.len() {
        return false;
    }
    for index in 0..pieces.len() {
        if !is_same_piece(pieces[index], others[index]) {
            return false;
        }
    }
    true
}

/// How many steps lead on from the end of a path to the end of another one, where steps alone do.
pub(crate) fn steps_between(path: &Path, further: &Path) -> Option<u32>
    ensures { IfSome result (λ more. events_of further.now ≡ events_of path.now ++ steps more) }
{
    if !are_same(path.pieces.as_slice(), further.pieces.as_slice()) {
        return None;
    }
    further.steps.checked_sub(path.steps)
}
