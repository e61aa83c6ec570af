//! A node, as plain numbers.
ghost use Rattle.std.specs.Prelude.{◌≡◌};
ghost use Rattle.xv6_c.specs.Numbers.{stat_told};

use machine::Stat;

/// A node of the disk.
#[repr(C)]
#[derive(Clone, Copy)]
pub struct StatTold {
    /// 1 directory, 2 file, 3 device; 0 where there is none.
    pub kind: u32,
    /// How many names it has.
    pub links: u32,
    /// In bytes.
    pub size: u32,
}

/// A node, as plain numbers.
pub fn of_stat(stat: Option<Stat>) -> StatTold
    ensures { result ≡ stat_told stat }
{
    match stat {
        None => StatTold {
            kind: 0,
            links: 0,
            size: 0,
        },
        Some(stat) => StatTold {
            kind: u32::from(stat.kind),
            links: u32::from(stat.links),
            size: stat.size,
        },
    }
}
