//! Loads and stores before which a motion ends.
ghost use Rattle.std.specs.Prelude.{◌≡◌, Some};
ghost use Rattle.gdbstate.specs.Accesses.{access_at, touches};

use next_fault::{DataAccess, data_access};
use timeline::Debuggee;

/// Bytes of a process before whose loads a motion ends, and before whose stores, too, where these are meant.
#[derive(Clone, Copy)]
pub struct AccessWatch {
    pub pid: u32,
    pub address: u64,
    pub count: u64,
    /// Whether stores are meant, too.
    pub stores: bool,
}

// Whether a load or a store is of some of the bytes, and is meant.
fn touches(one: &AccessWatch, access: DataAccess) -> bool
    ensures { result ≡ touches one.now (Some access) }
{
    let watched_end = u128::from(one.address) + u128::from(one.count);
    let accessed_end = u128::from(access.address) + u128::from(access.size);
    (one.stores || !access.is_store)
        && u128::from(access.address) < watched_end
        && u128::from(one.address) < accessed_end
}

/// Whether the next instruction of a process loads or stores bytes of a watch.
pub fn is_accessed(machine: &Debuggee, pid: u32, one: &AccessWatch) -> bool
    ensures { result ≡ access_at machine.now.state pid one.now }
{
    if one.pid != pid {
        return false;
    }
    match data_access(machine, pid) {
        Some(access) => touches(one, access),
        None => false,
    }
}
