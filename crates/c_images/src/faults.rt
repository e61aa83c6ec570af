//! Why nothing is made of an image or of a text, as numbers.
ghost use Rattle.std.specs.Prelude.{◌≡◌, ℕ};
ghost use Rattle.c_images.specs.Faults.{asm_number, image_number, listing_number, make_number, making_number};
ghost use Rattle.c_images.specs.Faults.{migrate_number, opening_number, tree_number};

use asm::AsmKind;
use imagebytes::{
    ImageFault, ListingFault, MakeFault, MakingFault, MigrateFault, OpeningFault, TreeFault,
};

/// The host has no memory.
pub const NO_MEMORY: u32 = 4;

/// A fault that has a number.
pub trait Fault {
    ghost numbered: { Self → ℕ };

    /// Its number.
    fn number(&self) -> u32
        ensures { result ≡ numbered self.now };
}

// Why bytes are no image: 101 on, in the order of the rules.
impl Fault for ImageFault {
    ghost numbered = { image_number };

    fn number(&self) -> u32 {
        match self {
            ImageFault::Length => 101,
            ImageFault::Magic => 102,
            ImageFault::Numbers => 103,
            ImageFault::NodeType => 104,
            ImageFault::Address => 105,
            ImageFault::SharedBlock => 106,
            ImageFault::Bitmap => 107,
            ImageFault::Size => 108,
            ImageFault::Entry => 109,
            ImageFault::Links => 110,
            ImageFault::Unreached => 111,
            ImageFault::Device | ImageFault::NoMemory => NO_MEMORY,
        }
    }
}

// Why a path is refused: 201 on. A disk in memory fails for want of memory alone.
impl Fault for TreeFault {
    ghost numbered = { tree_number };

    fn number(&self) -> u32 {
        match self {
            TreeFault::NotFound => 201,
            TreeFault::NotDir => 202,
            TreeFault::Exists => 203,
            TreeFault::IsDir => 204,
            TreeFault::NotEmpty => 205,
            TreeFault::DotName => 206,
            TreeFault::DeadDir => 207,
            TreeFault::Links => 208,
            TreeFault::Blocks => 209,
            TreeFault::Inodes => 210,
            TreeFault::Full => 211,
            TreeFault::Device => NO_MEMORY,
        }
    }
}

// Why an image isn't made of a manifest: 301 on.
impl Fault for MakeFault {
    ghost numbered = { make_number };

    fn number(&self) -> u32 {
        match self {
            MakeFault::Name => 301,
            MakeFault::Twice => 302,
            MakeFault::Blocks => 303,
            MakeFault::Inodes => 304,
            MakeFault::Parent => 305,
            MakeFault::Numbers => 306,
            MakeFault::NoMemory => NO_MEMORY,
        }
    }
}

// Why no image is made of entries: 301 on.
impl Fault for MakingFault {
    ghost numbered = { making_number };

    fn number(&self) -> u32 {
        match self {
            MakingFault::Entry => 307,
            MakingFault::Make(fault) => fault.number(),
        }
    }
}

// Why a file of an image isn't read or written.
impl Fault for OpeningFault {
    ghost numbered = { opening_number };

    fn number(&self) -> u32 {
        match self {
            OpeningFault::Image(fault) => fault.number(),
            OpeningFault::Tree(fault) => fault.number(),
            OpeningFault::NoMemory => NO_MEMORY,
        }
    }
}

// Why a directory of an image isn't listed. A list in memory isn't taken for want of memory alone.
impl Fault for ListingFault {
    ghost numbered = { listing_number };

    fn number(&self) -> u32 {
        match self {
            ListingFault::Image(fault) => fault.number(),
            ListingFault::Tree(fault) => fault.number(),
            ListingFault::Output | ListingFault::NoMemory => NO_MEMORY,
        }
    }
}

// Why an image of the format of small files doesn't become one of the format in use.
impl Fault for MigrateFault {
    ghost numbered = { migrate_number };

    fn number(&self) -> u32 {
        match self {
            MigrateFault::Image(fault) => fault.number(),
            MigrateFault::Blocks => 401,
            MigrateFault::NoMemory => NO_MEMORY,
        }
    }
}

/// What is wrong with a line of a text: 501 on.
pub fn of_asm_kind(kind: AsmKind) -> u32
    ensures { result ≡ asm_number kind }
{
    match kind {
        AsmKind::Syntax => 501,
        AsmKind::Mnemonic => 502,
        AsmKind::Operand => 503,
        AsmKind::Range => 504,
        AsmKind::Label => 505,
        AsmKind::Twice => 506,
        AsmKind::Align => 507,
        AsmKind::NoMemory => NO_MEMORY,
    }
}
