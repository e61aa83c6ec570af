//! Calls.
ghost use Rattle.std.specs.Prelude.{◌≡◌};
ghost use Rattle.jsonrows.specs.Rows.{nothing};

use crate::arguments::Argument;
use crate::texts::{Bytes, Latin, Printed};
use crate::waiting::WaitsRow;
use serde::Serialize;
use tracetext::CallName;

/// What a call was handed in memory, or filled in.
/// What it has none of is left out; what can't be read, or was not filled in, is null.
#[derive(Drop, Serialize)]
pub struct Handed {
    #[serde(skip_serializing_if = "Option::is_none")]
    pub path: Option<Option<Bytes>>,
    #[serde(skip_serializing_if = "Option::is_none")]
    pub new_path: Option<Option<Bytes>>,
    #[serde(skip_serializing_if = "Option::is_none")]
    pub argv: Option<Option<Vec<Bytes>>>,
    #[serde(skip_serializing_if = "Option::is_none")]
    pub data: Option<Option<Bytes>>,
    /// Whether a text is cut.
    #[serde(skip_serializing_if = "Option::is_none")]
    pub cut: Option<bool>,
    /// The status of a child.
    #[serde(skip_serializing_if = "Option::is_none")]
    pub status: Option<Option<i32>>,
    /// The descriptors of a pipe.
    #[serde(skip_serializing_if = "Option::is_none")]
    pub ends: Option<Option<[i32; 2]>>,
}

impl Handed {
    /// Nothing.
    pub fn nothing() -> Handed
        ensures { result ≡ nothing }
    {
        Handed {
            path: None,
            new_path: None,
            argv: None,
            data: None,
            cut: None,
            status: None,
            ends: None,
        }
    }
}

/// A call that returned at an event.
#[derive(Drop, Serialize)]
pub struct CallRow<'a> {
    pub at: u64,
    pub pid: u32,
    pub program: Option<Latin<'a>>,
    pub call: Printed<CallName>,
    /// The event of its ecall.
    pub since: u64,
    pub arguments: &'a [Argument],
    pub result: i64,
    #[serde(flatten)]
    pub handed: Handed,
}

/// A call that waits from an event on.
#[derive(Drop, Serialize)]
pub struct WaitRow<'a> {
    pub at: u64,
    pub pid: u32,
    pub program: Option<Latin<'a>>,
    pub call: Printed<CallName>,
    pub arguments: &'a [Argument],
    pub waits: Option<WaitsRow>,
    #[serde(flatten)]
    pub handed: Handed,
}
