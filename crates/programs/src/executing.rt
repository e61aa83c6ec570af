//! A program that replaces another.

ghost use Rattle.std.specs.Prelude.{◌≡◌, IfOk, OnErr, Some, false, true};
ghost use Rattle.programs.specs.Executed.{Executes};
ghost use Rattle.programs.specs.Placed.{Leaves};
ghost use Rattle.spaces.specs.Spaces.{SpaceView, has_space, with_view};
ghost use Rattle.tree.specs.Tree.{Serves};
ghost use Rattle.unixmodel.specs.Files.{Node, slot};

use crate::arguments::read_arguments;
use crate::headers::read_program;
use crate::loading::load;
use blockdev::{BlockDev, DeviceFault};
use spaces::Spaces;
use sv39::Translate;
use tree::Tree;

/// How a program begins.
#[derive(Clone, Copy)]
pub struct Started {
    /// The address of its first instruction.
    pub pc: u64,
    /// How many arguments it has.
    pub count: u64,
    /// The address of their pointers, down to which its stack reaches.
    pub sp: u64,
}

/// Replaces what a slot holds by the program of the file that a number names, with the arguments that argv points at
/// there, and returns how it begins. `None`: it can't be executed, or the frames don't suffice for it beside the old
/// one; then nothing changed. Where the device fails nothing more is promised of the slot than that it has a space.
pub fn execute<D: BlockDev, T: Translate>(
    tree: &mut Tree<D>,
    spaces: &mut Spaces<T>,
    at: usize,
    number: usize,
    argv: u64,
) -> Result<Option<Started>, DeviceFault>
    requires up { tree.old.failed ≡ false }
    requires node { (node : Node) × (slot tree.old.files number ≡ Some node) }
    requires space { has_space spaces.old at ≡ true }
    ensures serves { Serves tree.old tree.new result (Leaves tree.old tree.new) }
    ensures executed { IfOk result (Executes tree.old.files spaces.old spaces.new at number argv) }
    ensures failed { OnErr result ((held : SpaceView) × (spaces.new ≡ with_view spaces.old at held)) }
{
    let Some(program) = read_program(tree, number)? else {
        return Ok(None);
    };
    if program.frames() > u64::from(spaces.free()) {
        return Ok(None);
    }
    let Some(arguments) = read_arguments(spaces, at, argv, program.pages) else {
        return Ok(None);
    };
    load(tree, spaces, at, number, &program, &arguments)?;
    Ok(Some(Started {
        pc: program.header.entry,
        count: arguments.count,
        sp: arguments.sp,
    }))
}
