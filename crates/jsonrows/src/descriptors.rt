//! The descriptors of a process.
ghost use Rattle.std.specs.Prelude.{ℕ, ◌++◌, ◌<◌, ◌≡◌, IfOk, OnOk, option_and_then, option_map};
ghost use Rattle.jsonrows.specs.Rows.{file_named, on_row, row_of, rows_below};
ghost use Rattle.machine.specs.Holdings.{file_told};
ghost use Rattle.unixmodel.specs.Files.{slot};

use blockdev::BlockDev;
use machine::{Machine, OpenOn, Opened};
use serde::Serialize;
use std::alloc::{AllocError, Global};
use sv39::Translate;

/// The open files that the descriptors of a process name.
pub type Descriptors = [Option<Opened>; 16];

/// What an open file is open on.
#[derive(Clone, Copy, Serialize)]
#[serde(rename_all = "snake_case")]
enum OnKind {
    File,
    Console,
    Device,
    ReadEnd,
    WriteEnd,
}

/// What an open file is open on: its kind, the number of the inode or of the pipe, and of a file the offset.
#[derive(Clone, Copy, Serialize)]
pub struct OnRow {
    kind: OnKind,
    number: u64,
    offset: Option<u32>,
}

/// A descriptor that is open.
#[derive(Clone, Copy, Serialize)]
pub struct DescriptorRow {
    descriptor: u64,
    on: OnRow,
    readable: bool,
    writable: bool,
}

impl OnRow {
    // What has no offset.
    fn new(kind: OnKind, number: u64) -> OnRow
        ensures { result ≡ record { kind = kind; number = number; offset = None } }
    {
        OnRow {
            kind,
            number,
            offset: None,
        }
    }

    // A file, from an offset on.
    fn of_file(number: u32, offset: u32) -> OnRow
        ensures { result ≡ record { kind = OnKind.File; number = number; offset = Some offset } }
    {
        OnRow {
            offset: Some(offset),
            ..OnRow::new(OnKind::File, u64::from(number))
        }
    }
}

fn on_row(on: OpenOn) -> OnRow
    ensures { result ≡ on_row on }
{
    match on {
        OpenOn::File { number, offset } => OnRow::of_file(number, offset),
        OpenOn::Console { number } => OnRow::new(OnKind::Console, u64::from(number)),
        OpenOn::Device { number } => OnRow::new(OnKind::Device, u64::from(number)),
        OpenOn::ReadEnd { pipe } => OnRow::new(OnKind::ReadEnd, pipe as u64),
        OpenOn::WriteEnd { pipe } => OnRow::new(OnKind::WriteEnd, pipe as u64),
    }
}

// Puts the row of a descriptor at the end, if it is open.
fn push_row(
    descriptor: usize,
    opened: Option<Opened>,
    rows: &mut Vec<DescriptorRow>,
) -> Result<(), AllocError>
    ensures { OnOk result (rows.new.items ≡ rows.old.items ++ row_of descriptor opened) }
{
    if let Some(opened) = opened {
        rows.push(DescriptorRow {
            descriptor: descriptor as u64,
            on: on_row(opened.on),
            readable: opened.readable,
            writable: opened.writable,
        })?;
    }
    Ok(())
}

/// The open file with a number, where a descriptor names one.
pub(crate) fn opened_at<D: BlockDev, T: Translate>(
    machine: &Machine<D, T>,
    file: Option<u8>,
) -> Option<Opened>
    ensures { option_map file_told result ≡ option_and_then (slot machine.now.state.opens) file }
{
    machine.opened(usize::from(file?))
}

/// What the descriptors of the process with a pid name; nothing where there is no such process.
pub fn descriptors_of<D: BlockDev, T: Translate>(machine: &Machine<D, T>, pid: u32) -> Descriptors
    ensures { (descriptor : ℕ) → descriptor < 16
        → option_map file_told (slot result descriptor) ≡ file_named machine.now.state pid descriptor }
{
    let mut opened = [None; 16];
    if let Some(holdings) = machine.holdings(pid) {
        for descriptor in 0..16 {
            opened[descriptor] = opened_at(machine, holdings.descriptors[descriptor]);
        }
    }
    opened
}

/// The rows of the descriptors that are open, from the lowest on.
pub fn descriptor_rows(
    alloc: Global,
    descriptors: &Descriptors,
) -> Result<Vec<DescriptorRow>, AllocError>
    ensures { IfOk result (λ rows. rows.items ≡ rows_below descriptors.now 16) }
{
    let mut rows = Vec::new(alloc);
    for descriptor in 0..16 {
        push_row(descriptor, descriptors[descriptor], &mut rows)?;
    }
    Ok(rows)
}
