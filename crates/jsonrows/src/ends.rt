//! Processes that ended.

use crate::descriptors::DescriptorRow;
use crate::texts::Latin;
use serde::Serialize;

/// How a process ended.
#[derive(Clone, Copy, PartialEq, Eq, Serialize)]
#[serde(rename_all = "snake_case")]
pub enum How {
    /// It called exit.
    Exit,
    /// An instruction trapped.
    Fault,
    /// It was killed.
    Killed,
}

/// A process that ended at an event: how, with which status, and who killed it, if that is known.
#[derive(Clone, Copy, Serialize)]
pub struct EndedRow<'a> {
    pub at: u64,
    pub pid: u32,
    pub program: Option<Latin<'a>>,
    pub parent: u32,
    pub how: How,
    pub status: i32,
    pub killer: Option<u32>,
}

/// The same, with the descriptors that were open just before.
#[derive(Drop, Serialize)]
pub struct ExitRow<'a> {
    #[serde(flatten)]
    pub ended: EndedRow<'a>,
    pub descriptors: Vec<DescriptorRow>,
}
