//! The files that a disk has, by their paths.

use crate::search::Explored;
use layout::Entry;
use machine::{Halt, Stat};
use std::alloc::{AllocError, AllocFailed, Global};

/// The number of the root.
const ROOT: usize = 1;

/// How many bytes an entry has in its directory.
const ENTRY: usize = 16;

/// How many bytes are read at once.
const PIECE: usize = 1024;

/// A node has no more pieces.
const PIECES: usize = 1 << 20;

/// A disk has no more nodes.
const NODES: usize = 8192;

/// How many bytes of a file are kept.
pub(crate) const KEPT: usize = 24;

/// The kind of a directory.
const DIRECTORY: u16 = 1;

/// The first sum, and the factor, of a sum of bytes (FNV-1a).
const SUM: u64 = 0xcbf2_9ce4_8422_2325;

const FACTOR: u64 = 0x0000_0100_0000_01b3;

/// Why the nodes aren't known.
#[derive(Clone, Copy)]
pub(crate) enum NodeFault {
    NoMemory,
    Machine,
}

impl From<AllocError> for NodeFault {
    ghost use Rattle.std.specs.Prelude.{◌≡◌};
    ghost use Rattle.explore_command.specs.declared.nodes.NodeFault.TheVariants.{NoMemory};

    ghost from_gives = { λ _ fault. fault ≡ NoMemory };

    fn from(_fault: AllocError) -> NodeFault {
        NodeFault::NoMemory
    }
}

impl<T: Drop> From<AllocFailed<T>> for NodeFault {
    ghost use Rattle.std.specs.Prelude.{◌≡◌};
    ghost use Rattle.explore_command.specs.declared.nodes.NodeFault.TheVariants.{NoMemory};

    ghost from_gives = { λ _ fault. fault ≡ NoMemory };

    fn from(_failed: AllocFailed<T>) -> NodeFault {
        NodeFault::NoMemory
    }
}

impl From<Halt> for NodeFault {
    ghost use Rattle.std.specs.Prelude.{◌≡◌};
    ghost use Rattle.explore_command.specs.declared.nodes.NodeFault.TheVariants.{Machine};

    ghost from_gives = { λ _ fault. fault ≡ Machine };

    fn from(_halt: Halt) -> NodeFault {
        NodeFault::Machine
    }
}

/// A node of a disk: its path, its inode, a sum of its bytes, and the first of them.
#[derive(Drop)]
pub(crate) struct Node {
    pub(crate) path: Vec<u8>,
    pub(crate) stat: Stat,
    pub(crate) sum: u64,
    pub(crate) front: Vec<u8>,
}

impl Node {
    /// Whether it is a directory.
    pub(crate) fn is_directory(&self) -> bool {
        self.stat.kind == DIRECTORY
    }

    /// Whether another node has the same bytes, and is of the same kind.
    pub(crate) fn is_same(&self, other: &Node) -> bool {
        self.stat == other.stat && self.sum == other.sum
    }
}

/// A sum of bytes, with more of them.
pub(crate) fn summed(sum: u64, bytes: &[u8]) -> u64 {
    let mut sum = sum;
    for byte in bytes {
        sum = (sum ^ u64::from(*byte)).wrapping_mul(FACTOR);
    }
    sum
}

// Sums the bytes of a node, and keeps the first of them.
fn read_node(machine: &mut Explored, number: usize, front: &mut Vec<u8>) -> Result<u64, NodeFault> {
    let mut piece = [0; PIECE];
    let mut sum = SUM;
    for k in 0..PIECES {
        let count = machine
            .read_inode(number, PIECE * k, &mut piece)?
            .min(PIECE);
        let room = KEPT.saturating_sub(front.len()).min(count);
        front.extend_from_slice(&piece[..room])?;
        sum = summed(sum, &piece[..count]);
        if count < PIECE {
            break;
        }
    }
    Ok(sum)
}

// The path of an entry of a directory.
fn path_of(alloc: Global, directory: &[u8], name: &[u8]) -> Result<Vec<u8>, NodeFault> {
    let mut path = Vec::from_slice(alloc, directory)?;
    path.extend_from_slice(b"/")?;
    path.extend_from_slice(name)?;
    Ok(path)
}

// A directory: its path, and its number.
#[derive(Drop)]
struct Folder {
    path: Vec<u8>,
    number: usize,
}

// What is found: the nodes, and the directories whose entries are looked at.
#[derive(Drop)]
struct Finding {
    nodes: Vec<Node>,
    folders: Vec<Folder>,
}

// Takes the node of an entry.
fn take_entry(
    alloc: Global,
    machine: &mut Explored,
    folder: &[u8],
    entry: &Entry,
    finding: &mut Finding,
) -> Result<(), NodeFault> {
    let number = usize::from(entry.number);
    let name = entry.name();
    if number == 0 || name == b".".as_slice() || name == b"..".as_slice() {
        return Ok(());
    }
    let Some(stat) = machine.stat_inode(number)? else {
        return Ok(());
    };
    let path = path_of(alloc, folder, name)?;
    let mut front = Vec::new(alloc);
    let mut sum = SUM;
    if stat.kind == DIRECTORY {
        let path = Vec::from_slice(alloc, path.as_slice())?;
        finding.folders.push(Folder { path, number })?;
    } else {
        sum = read_node(machine, number, &mut front)?;
    }
    finding.nodes.push(Node {
        path,
        stat,
        sum,
        front,
    })?;
    Ok(())
}

// The entry at an offset of a directory, if there is one.
fn entry_at(machine: &mut Explored, number: usize, at: usize) -> Result<Option<Entry>, NodeFault> {
    let mut bytes = [0; ENTRY];
    let count = machine.read_inode(number, at, &mut bytes)?;
    if count < ENTRY {
        return Ok(None);
    }
    Ok(Some(Entry::from_front(&bytes)))
}

// Takes the nodes of a directory's entries.
fn take_folder(
    alloc: Global,
    machine: &mut Explored,
    folder: &Folder,
    finding: &mut Finding,
) -> Result<(), NodeFault> {
    for k in 0..PIECES {
        let Some(entry) = entry_at(machine, folder.number, ENTRY * k)? else {
            break;
        };
        take_entry(alloc, machine, folder.path.as_slice(), &entry, finding)?;
    }
    Ok(())
}

/// The nodes of a machine's disk that have names, except the root.
pub(crate) fn nodes_of(alloc: Global, machine: &mut Explored) -> Result<Vec<Node>, NodeFault> {
    let mut finding = Finding {
        nodes: Vec::new(alloc),
        folders: Vec::new(alloc),
    };
    finding.folders.push(Folder {
        path: Vec::new(alloc),
        number: ROOT,
    })?;
    for _ in 0..NODES {
        let Some(folder) = finding.folders.pop() else {
            break;
        };
        take_folder(alloc, machine, &folder, &mut finding)?;
    }
    Ok(finding.nodes)
}
