//! The script of a path.
ghost use Rattle.std.specs.Prelude.{◌≡◌, ◌≤◌, ◌++◌, IfOk, IfSome, OnOk, Some};
ghost use Rattle.events.specs.Records.{Records};
ghost use Rattle.events.specs.Scripts.{IsScriptOf};
ghost use Rattle.orders.specs.Paths.{events_of, piece_events, pieces_events, steps};

use events::{Record, Transcript};
use explore::{Interrupt, Path, Piece};
use std::alloc::{AllocError, Global};

/// The most events of a line.
const MOST: u32 = 1_000_000_000;

// Records steps, of which a line has a limited number.
fn put_steps(transcript: &mut Transcript, count: u32)
    ensures { Records transcript.old transcript.new (steps count) }
{
    let mut left = count;
    while left > 0 {
        let some = left.min(MOST);
        transcript.steps(some);
        left -= some;
    }
}

// Records some steps and an interrupt.
fn put_piece(transcript: &mut Transcript, piece: &Piece)
    ensures { Records transcript.old transcript.new (piece_events piece.now) }
{
    put_steps(transcript, piece.steps);
    match piece.interrupt {
        Interrupt::Tick => transcript.ticks(1),
        Interrupt::Key(key) => transcript.keys(&[key]),
    }
}

// Records the events of pieces.
fn put_pieces(transcript: &mut Transcript, pieces: &[Piece])
    ensures { Records transcript.old transcript.new (pieces_events pieces.now) }
{
    for piece in pieces {
        put_piece(transcript, piece);
    }
}

/// The text of the script that has the events of a path.
pub(crate) fn script_text(alloc: Global, path: &Path) -> Result<String, AllocError>
    ensures { IfOk result (λ text. IsScriptOf text.bytes.items (events_of path.now)) }
{
    let mut transcript = Transcript::new(alloc);
    put_pieces(&mut transcript, path.pieces.as_slice());
    put_steps(&mut transcript, path.steps);
    transcript.text(alloc)
}
