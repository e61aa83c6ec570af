//! Whether the disks of two machines have the same files with names.
ghost use Rattle.std.specs.Prelude.{◌≡◌, ◌<◌, IfOk, IfSome, true};
ghost use Rattle.explore.specs.Both.{BothStay, IsSamePiece, named_of};
ghost use Rattle.orders.specs.Ends.{SavesSame, saved_as};
ghost use Rattle.unixmodel.specs.Files.{slot};
ghost use Rattle.unixmodel.specs.Shown.{bytes_or_none};

use blockdev::BlockDev;
use machine::{Halt, Machine, Stat};
use sv39::Translate;

// A disk has at most that many nodes.
const NODES: usize = 8192;

// How many bytes are compared at once.
const PIECE: usize = 1024;

// A node has less pieces; the last one, which may be empty, is shorter.
const PIECES: usize = 1024;

// What is reported of a node that has a name.
fn named(stat: Option<Stat>) -> Option<Stat>
    ensures { result ≡ named_of stat }
{
    match stat {
        None => None,
        Some(stat) => { if stat.links == 0 { None } else { Some(stat) } }
    }
}

// Whether two reports are the same.
fn is_same(file: Option<Stat>, other: Option<Stat>) -> bool
    ensures { result ≡ true → file ≡ other }
{
    file == other
}

// Whether two buffers are the same.
fn has_same(bytes: &[u8], others: &[u8]) -> bool
    ensures { result ≡ true → bytes.now ≡ others.now }
{
    bytes == others
}

// How many bytes piece `k` of a node has, if they are the same in both.
fn same_piece<D: BlockDev, T: Translate>(
    one: &mut Machine<D, T>,
    other: &mut Machine<D, T>,
    number: usize,
    k: usize,
) -> Result<Option<usize>, Halt>
    requires { k < 1024 }
    ensures { IfOk result (λ same. BothStay one.old one.new other.old other.new
        (IfSome same (IsSamePiece (bytes_or_none (slot one.old.state.files number))
        (bytes_or_none (slot other.old.state.files number)) k))) }
{
    let mut bytes = [0; PIECE];
    let mut their_bytes = [0; PIECE];
    let count = one.read_inode(number, PIECE * k, &mut bytes)?;
    let their_count = other.read_inode(number, PIECE * k, &mut their_bytes)?;
    if count != their_count {
        return Ok(None);
    }
    if !has_same(&bytes, &their_bytes) {
        return Ok(None);
    }
    Ok(Some(count))
}

// Whether a node has the same bytes.
fn has_same_bytes<D: BlockDev, T: Translate>(
    one: &mut Machine<D, T>,
    other: &mut Machine<D, T>,
    number: usize,
) -> Result<bool, Halt>
    ensures { IfOk result (λ same. BothStay one.old one.new other.old other.new (same ≡ true
        → bytes_or_none (slot one.old.state.files number) ≡ bytes_or_none (slot other.old.state.files number))) }
{
    for k in 0..PIECES {
        let same = same_piece(one, other, number, k)?;
        let Some(count) = same else {
            return Ok(false);
        };
        if count < PIECE {
            return Ok(true);
        }
    }
    Ok(false)
}

// Whether the node with a number is saved by both as the same file, or by none.
fn has_same_file<D: BlockDev, T: Translate>(
    one: &mut Machine<D, T>,
    other: &mut Machine<D, T>,
    number: usize,
) -> Result<bool, Halt>
    ensures { IfOk result (λ same. BothStay one.old one.new other.old other.new (same ≡ true
        → saved_as (slot one.old.state.files number) ≡ saved_as (slot other.old.state.files number))) }
{
    let stat = one.stat_inode(number)?;
    let their_stat = other.stat_inode(number)?;
    let file = named(stat);
    let their_file = named(their_stat);
    if !is_same(file, their_file) {
        return Ok(false);
    }
    if file.is_none() {
        return Ok(true);
    }
    has_same_bytes(one, other, number)
}

/// Whether the same files have names on both disks, with the same kinds, as many names, and the same bytes. A yes is
/// right; the machines stay as they are.
pub fn saves_same<D: BlockDev, T: Translate>(
    one: &mut Machine<D, T>,
    other: &mut Machine<D, T>,
) -> Result<bool, Halt>
    ensures { IfOk result (λ same. BothStay one.old one.new other.old other.new
        (same ≡ true → SavesSame one.old.state other.old.state)) }
{
    for number in 0..NODES {
        let same = has_same_file(one, other, number)?;
        if !same {
            return Ok(false);
        }
    }
    Ok(true)
}
