//! Boots machines and gives them the events of scripts and plays.
ghost use Rattle.std.specs.Prelude.{IfErr, IfOk, IsErrOf, None, is_none, is_some, option_map, ◌&&◌, ◌<◌, ◌≡◌, ◌⊎◌};
ghost use Rattle.std.specs.Prelude.{◌↔◌};
ghost use Rattle.driver.specs.Driven.{halts, spot_at};
ghost use Rattle.imagerules.specs.Content.{image_of};
ghost use Rattle.machine.specs.Booted.{IsUnbooted};
ghost use Rattle.machine.specs.Flat.{RefusesFlat};
ghost use Rattle.machine.specs.View.{IsUp};
ghost use Rattle.events.specs.declared.clock.Clock.TheVariants.{Off};
ghost use Rattle.run_commands.specs.Files.{MemoryRefuses, MemoryShows, RunsUnrecorded};
ghost use Rattle.run_commands.specs.Runs.{LeavesOf, WritesOut};
ghost use Rattle.run_commands.specs.Shows.{FlatRuns, IsPieceGiven, Performs, PlaysOutTo, RefusesWith, Shows};
ghost use Rattle.run_commands.specs.Shows.{ShowsWith};
ghost use Rattle.unixmodel.specs.Start.{start_flat};

use crate::finish::{Finish, end_with, parts, waited_in_vain};
use crate::telling::Lent;
use blockdev::{BlockDev, FailAt, MemDisk};
use commandline::Run;
use driver::{Driver, Unreached, Watch};
use events::{Command, Play, Record, Unrecorded};
use host::{End, Failure};
use machine::{BootFault, Halt, Machine, boot, boot_flat_with};
use std::alloc::Global;
use std::io::Write;
use sv39::{Plain, Recent, Tlb, Translate};

/// The translator of runs whose calls or steps are watched. It is a type of its own, so that the code of other runs is
/// compiled without watchers; the output is the same over every translator.
pub(crate) type Watched = Recent<Tlb<32>>;

/// What gives a machine its events.
#[derive(Clone, Copy)]
pub enum Piece<'s, 'a> {
    /// The commands of a script.
    Script(&'s [Command<'a>]),
    /// The lines of a play.
    Play(&'s Play<'a>),
}

/// What is performed: a piece, on the machine that the words of a command ask for.
#[derive(Clone, Copy)]
pub struct Show<'s, 'a, 'w> {
    pub alloc: Global,
    pub words: &'s Run<'w>,
    pub piece: Piece<'s, 'a>,
}

/// What is performed on the machine of a flat program: a script.
#[derive(Clone, Copy)]
pub struct FlatShow<'s, 'a> {
    pub alloc: Global,
    pub program: &'s [u8],
    pub frames: u32,
    pub script: &'s [Command<'a>],
}

/// What a machine boots from, and what translates its addresses.
#[derive(Drop)]
pub struct Hardware<D, T> {
    pub disk: D,
    pub translator: T,
}

/// What is left of a machine that was driven, and how that ended.
#[derive(Drop)]
pub struct Driven<D: BlockDev, T: Translate, R, W> {
    pub machine: Machine<D, T>,
    pub keeper: R,
    pub stdout: W,
    pub end: End,
}

/// What is left of a performance: how it ended, the disk where it is saved, who recorded its events, and the output
/// that has the console's bytes.
#[derive(Drop)]
pub struct Performed<D, R, W> {
    pub finish: Finish,
    pub disk: Option<D>,
    pub keeper: R,
    pub stdout: W,
}

// Ends a run: who looks on sees the machine as it is left, and the console's bytes are written out.
fn end_run<D: BlockDev, T: Translate, R: Record, V: Watch + Drop, W: Write>(
    driver: Driver<D, T, R, V, W>,
    ended: Result<(), Halt>,
) -> Driven<D, T, R, W>
    ensures machine { result.machine ≡ driver.machine }
    ensures keeper { result.keeper ≡ driver.keeper }
    ensures written { WritesOut driver.machine driver.out ended (W.contents result.stdout) result.end }
{
    let (machine, keeper, mut watch, out) = driver.into_parts();
    watch.end(&machine);
    let (mut stdout, failures) = out.into_parts();
    let is_written = stdout.flush().is_ok();
    Driven {
        machine,
        keeper,
        stdout,
        end: end_with(ended, failures, is_written),
    }
}

// How the events of a script ended, which waits for nothing.
fn reached(ended: Result<(), Halt>) -> Result<Option<Unreached>, Halt>
    ensures ended { halts result ≡ ended }
    ensures reached { IfOk result (λ unreached. unreached ≡ None) }
{
    match ended {
        Ok(()) => Ok(None),
        Err(halt) => Err(halt),
    }
}

// Gives the events of a piece. A play's line that waits in vain is the last, and is returned.
fn give<D: BlockDev, T: Translate, R: Record, V: Watch, W: Write>(
    driver: &mut Driver<D, T, R, V, W>,
    piece: Piece<'_, '_>,
) -> Result<Option<Unreached>, Halt>
    requires up { IsUp driver.old.machine }
    requires off { driver.old.clock ≡ Off }
    ensures { IsPieceGiven piece.entry (spot_at driver.old.machine driver.old.out driver.old.clock)
        driver.old.machine driver.new.machine driver.old.out driver.new.out (R.kept driver.old.keeper)
        (R.kept driver.new.keeper) result }
{
    match piece {
        Piece::Script(commands) => reached(driver.run(commands)),
        Piece::Play(play) => driver.play(play),
    }
}

// The events of a piece, whose bytes for the console are written out, and what it waited for in vain.
fn play_out<D: BlockDev, T: Translate, R: Record, V: Watch + Drop, W: Write>(
    machine: Machine<D, T>,
    piece: Piece<'_, '_>,
    keeper: R,
    watch: V,
    stdout: W,
) -> (Driven<D, T, R, W>, Option<Unreached>)
    requires { IsUp machine }
    ensures { PlaysOutTo W.contents R.kept piece.entry keeper result.0.keeper machine result.0.machine stdout
        result.0.stdout result.0.end result.1 }
{
    let mut driver = Driver::new(machine, keeper, watch, stdout);
    let (ended, unreached) = parts(give(&mut driver, piece));
    (end_run(driver, ended), unreached)
}

/// The disk that a machine leaves whose events ended so, if it is to be saved and neither its device nor the console
/// has failed; and how that ended.
pub(crate) fn leave<D: BlockDev, T: Translate>(
    machine: Machine<D, T>,
    saves: bool,
    end: End,
) -> (End, Option<D>)
    ensures { LeavesOf D.content D.identity D.failures machine saves end result.0 result.1 }
{
    let _device = machine.device();
    if !saves || end.status() != 0 {
        return (end, None);
    }
    match machine.save() {
        Ok(disk) => (end, Some(disk)),
        Err(halt) => (End::Halted(halt), None),
    }
}

// Whether a machine is to be saved: not where a play waited in vain.
fn is_saved(words: &Run<'_>, unreached: Option<Unreached>) -> bool
    ensures { result ≡ (is_some words.now.save && is_none unreached) }
{
    words.save.is_some() && unreached.is_none()
}

// Performs on a machine that takes events, and saves it, if it is to be and neither its device nor the console has
// failed.
fn perform_machine<D: BlockDev, T: Translate, R: Record, V: Watch + Drop, W: Write>(
    machine: Machine<D, T>,
    show: Show<'_, '_, '_>,
    keeper: R,
    watch: V,
    stdout: W,
) -> Performed<D, R, W>
    requires { IsUp machine }
    ensures { Performs D.content D.identity D.failures W.contents R.kept machine show.entry keeper stdout result }
{
    let (driven, unreached) = play_out(machine, show.piece, keeper, watch, stdout);
    let Driven {
        machine,
        keeper,
        stdout,
        end,
    } = driven;
    let in_vain = waited_in_vain(&machine, unreached);
    let (end, disk) = leave(machine, is_saved(show.words, unreached), end);
    Performed {
        finish: Finish { end, in_vain },
        disk,
        keeper,
        stdout,
    }
}

// Boots a machine from a disk, and performs on it.
fn perform_disk<D: BlockDev, T: Translate, R: Record + Drop, V: Watch + Drop, W: Write + Drop>(
    hardware: Hardware<D, T>,
    show: Show<'_, '_, '_>,
    keeper: R,
    watch: V,
    stdout: W,
) -> Result<Performed<D, R, W>, BootFault>
    ensures ran { IfOk result
        (Shows D.content D.identity D.failures W.contents R.kept hardware.disk show.entry keeper stdout) }
    ensures refused { IfErr result (IsUnbooted D.identity D.failures hardware.disk
        (image_of (D.content hardware.disk)) show.entry.words.now.frames) }
{
    let Hardware { disk, translator } = hardware;
    let machine = boot(show.alloc, disk, translator, show.words.frames)?;
    Ok(perform_machine(machine, show, keeper, watch, stdout))
}

// Of what is left of a disk of which one access fails, the disk below.
fn inner_of<D: BlockDev>(failing: Option<FailAt<D>>) -> Option<D>
    ensures { option_map (λ failing. failing.device) failing ≡ result }
{
    failing.map(FailAt::into_inner)
}

// The same, with a disk of which one access fails, if the words ask for it.
fn perform_with<D: BlockDev, T: Translate, R: Record + Drop, V: Watch + Drop, W: Write + Drop>(
    hardware: Hardware<D, T>,
    show: Show<'_, '_, '_>,
    keeper: R,
    watch: V,
    stdout: W,
) -> Result<Performed<D, R, W>, BootFault>
    ensures ran { IfOk result
        (ShowsWith D.content D.identity D.failures W.contents R.kept hardware.disk show.entry keeper stdout) }
    ensures refused { IfErr result
        (RefusesWith D.content D.identity D.failures hardware.disk show.entry.words.now) }
{
    let Some(n) = show.words.fail else {
        return perform_disk(hardware, show, keeper, watch, stdout);
    };
    let Hardware { disk, translator } = hardware;
    let failing = FailAt::new(disk, n);
    let board = Hardware {
        disk: failing,
        translator,
    };
    let Performed {
        finish,
        disk,
        keeper,
        stdout,
    } = perform_disk(board, show, keeper, watch, stdout)?;
    Ok(Performed {
        finish,
        disk: inner_of(disk),
        keeper,
        stdout,
    })
}

/// Performs on the machine that boots from a disk, over the translator that the words ask for.
pub(crate) fn perform<R: Record + Drop, V: Watch + Drop, W: Write + Drop>(
    disk: MemDisk,
    show: Show<'_, '_, '_>,
    keeper: R,
    watch: V,
    stdout: W,
) -> Result<Performed<MemDisk, R, W>, BootFault>
    ensures ran { IfOk result (MemoryShows W.contents R.kept disk show.entry keeper stdout) }
    ensures refused { IfErr result (MemoryRefuses disk show.entry.words.now) }
{
    if show.words.tlb {
        let translator = Recent::new(Tlb::<64>::new());
        perform_with(Hardware { disk, translator }, show, keeper, watch, stdout)
    } else {
        let translator = Recent::new(Plain::new());
        perform_with(Hardware { disk, translator }, show, keeper, watch, stdout)
    }
}

/// Performs on the machine that boots from a disk, each of whose events is watched, and records nothing.
pub fn perform_watched<'a, V: Watch, W: Write + Drop>(
    disk: MemDisk,
    show: Show<'_, '_, '_>,
    watch: &mut V,
    stdout: W,
) -> Result<Performed<MemDisk, Unrecorded, W>, Failure<'a>>
    ensures { IfOk result (λ performed. RunsUnrecorded disk show.entry.words.now show.entry.piece (W.contents stdout)
        (W.contents performed.stdout) performed.finish performed.disk) }
{
    let translator = Watched::new(Tlb::new());
    let hardware = Hardware { disk, translator };
    let watch = Lent { watch: &mut *watch };
    match perform_with(hardware, show, Unrecorded, watch, stdout) {
        Ok(performed) => Ok(performed),
        Err(fault) => Err(Failure::Boot(fault)),
    }
}

/// Boots a flat program over a translator and gives it the events of a script: how that ended, and the output that has
/// the console's bytes.
pub(crate) fn perform_flat<T: Translate, V: Watch + Drop, W: Write + Drop>(
    show: FlatShow<'_, '_>,
    translator: T,
    watch: V,
    stdout: W,
) -> Result<(End, W), BootFault>
    ensures ran { IfOk result (FlatRuns W.contents show.entry stdout) }
    ensures count { IsErrOf result BootFault.FrameCount ↔ ((show.entry.frames < 64) ⊎ (32768 < show.entry.frames)) }
    ensures no_init { IsErrOf result BootFault.NoInit
        → start_flat show.entry.program.now show.entry.frames ≡ None }
    ensures only { RefusesFlat result }
{
    let machine = boot_flat_with(show.alloc, show.program, translator, show.frames)?;
    let (driven, _) = play_out(
        machine,
        Piece::Script(show.script),
        Unrecorded,
        watch,
        stdout,
    );
    Ok((driven.end, driven.stdout))
}
