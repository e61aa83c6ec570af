//! The open files that the descriptors of a process name.
ghost use Rattle.std.specs.Prelude.{◌≡◌, ◌<◌, ◌≤◌, ℕ, IfSome, count_by, false, is_none, length};
ghost use Rattle.kernel.specs.Descriptors.{all_closed, all_shared, standing, without_end};
ghost use Rattle.kernel.specs.Holding.{AreHeld, HasDropped, gone_nodes, last_node, listed};
ghost use Rattle.files.specs.Pipes.{IsPiped};
ghost use Rattle.kernel.specs.Opening.{OpensAs, free_descriptors};
ghost use Rattle.files.specs.Places.{closed, count_at, free_count, opens_of};
ghost use Rattle.tree.specs.Tree.{Serves};
ghost use Rattle.unixmodel.specs.Files.{free_slot, slot};

use arrayvec::ArrayVec;
use blockdev::{BlockDev, DeviceFault};
use files::{Files, OpenFile, Target};
use proc::Table;
use spaces::Spaces;
use sv39::Translate;
use tree::Tree;

/// The open file that a descriptor names.
pub fn named(descriptors: &[Option<u8>; 16], descriptor: u32) -> Option<u8>
    ensures named { result ≡ slot descriptors.now descriptor }
    ensures within { IfSome result (λ _. descriptor < 16) }
{
    *descriptors.get(descriptor as usize)?
}

/// The lowest free descriptor.
pub fn free_descriptor(descriptors: &[Option<u8>; 16]) -> Option<usize>
    ensures place { result ≡ free_slot descriptors.now }
    ensures within { IfSome result (λ free. free < 16) }
{
    descriptors
        .iter()
        .position(|descriptor| descriptor.is_none())
}

/// How many descriptors are free.
pub fn free_count(descriptors: &[Option<u8>; 16]) -> usize
    ensures { result ≡ count_by is_none descriptors.now }
{
    descriptors
        .iter()
        .filter(|descriptor| descriptor.is_none())
        .count()
}

/// One descriptor more names each open file that these name.
pub fn share_all(files: &mut Files, descriptors: &[Option<u8>; 16])
    requires few { (n : ℕ) → count_at files.old n ≤ 1024 }
    ensures { files.new ≡ all_shared files.old descriptors.now }
{
    for descriptor in descriptors {
        if let Some(id) = descriptor {
            files.dup(usize::from(*id));
        }
    }
}

/// Names a new open file by the lowest free descriptor of the process in slot `at`, and returns the descriptor.
pub fn open_as(table: &mut Table, files: &mut Files, at: usize, file: OpenFile) -> usize
    requires place { 0 < free_count files.old }
    requires free { 0 < free_descriptors table.old at }
    ensures opens { OpensAs table.old table.new files.old files.new at file result }
    ensures within { result < 16 }
{
    let process = table.process(at).unwrap();
    let free = free_descriptor(&process.descriptors).unwrap();
    let id = files.open(file).unwrap();
    table.set_descriptor(at, free, Some(id as u8));
    free
}

/// Closes one descriptor of an open file. A pipe without an end goes. Returns the node of the open file where this was
/// the last descriptor of an open file on a node.
pub fn close<T: Translate>(files: &mut Files, spaces: &mut Spaces<T>, id: usize) -> Option<u32>
    requires { IsPiped spaces.old.pipes (opens_of files.old) }
    ensures node { result ≡ last_node files.old id }
    ensures files { files.new ≡ closed files.old id }
    ensures pipes { spaces.new ≡ without_end spaces.old files.old id }
{
    match files.close(id)? {
        Target::Pipe { pipe, .. } => {
            if !files.has_pipe(pipe) {
                spaces.destroy_pipe(pipe);
            }
            None
        }
        Target::File { number, .. } | Target::Console { number } | Target::Device { number } => {
            Some(number)
        }
    }
}

/// Closes the descriptors. Pipes without an end go. Returns the nodes of the open files that go.
pub fn close_all<T: Translate>(
    files: &mut Files,
    spaces: &mut Spaces<T>,
    descriptors: &[Option<u8>; 16],
) -> ArrayVec<u32, 17>
    requires { IsPiped spaces.old.pipes (opens_of files.old) }
    ensures nodes { result.items ≡ gone_nodes files.old descriptors.now }
    ensures few { length result.items ≤ 16 }
    ensures files { files.new ≡ all_closed files.old descriptors.now }
    ensures pipes { spaces.new ≡ record spaces.old { pipes = standing spaces.old.pipes (opens_of files.new) } }
{
    let mut gone = ArrayVec::new();
    for descriptor in descriptors {
        if let Some(id) = descriptor {
            if let Some(node) = close(files, spaces, usize::from(*id)) {
                gone.push(node);
            }
        }
    }
    gone
}

/// The holder of this node, if there is one, lets it go.
pub fn let_one_go<D: BlockDev>(tree: &mut Tree<D>, node: Option<u32>) -> Result<(), DeviceFault>
    requires up { tree.old.failed ≡ false }
    requires held { AreHeld tree.old (listed node) }
    ensures { Serves tree.old tree.new result (λ done. HasDropped tree.old tree.new (listed node)) }
{
    match node {
        Some(node) => tree.drop_hold(node as usize),
        None => Ok(()),
    }
}

/// The holders of these nodes let them go, one after the other.
pub fn let_go<D: BlockDev>(tree: &mut Tree<D>, nodes: &[u32]) -> Result<(), DeviceFault>
    requires up { tree.old.failed ≡ false }
    requires held { AreHeld tree.old nodes.now }
    ensures { Serves tree.old tree.new result (λ done. HasDropped tree.old tree.new nodes.now) }
{
    for node in nodes {
        tree.drop_hold(*node as usize)?;
    }
    Ok(())
}
