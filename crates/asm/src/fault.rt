//! What is wrong with an assembly text.

use crate::file::NoMemory;
use std::alloc::AllocError;
use thiserror::Error;
use unixmodel::assembly::AsmKind;

/// What is wrong with a text: the line, from 1 on, and the kind. Lack of memory is reported with line 0.
#[derive(Clone, Copy, PartialEq, Eq, Debug, Error)]
#[error("line {line}: {kind:?}")]
pub struct AsmFault {
    pub line: usize,
    pub kind: AsmKind,
}

impl From<AllocError> for AsmFault {
    ghost use Rattle.std.specs.Prelude.{◌≡◌};
    ghost use Rattle.unixmodel.specs.declared.assembly.AsmKind.TheVariants as kind;

    ghost from_gives = { λ _ fault. fault ≡ record { line = 0; kind = kind.NoMemory } };

    fn from(_error: AllocError) -> AsmFault {
        AsmFault {
            line: 0,
            kind: AsmKind::NoMemory,
        }
    }
}

impl From<NoMemory> for AsmFault {
    ghost use Rattle.std.specs.Prelude.{◌≡◌};
    ghost use Rattle.unixmodel.specs.declared.assembly.AsmKind.TheVariants as kind;

    ghost from_gives = { λ _ fault. fault ≡ record { line = 0; kind = kind.NoMemory } };

    fn from(_error: NoMemory) -> AsmFault {
        AsmFault {
            line: 0,
            kind: AsmKind::NoMemory,
        }
    }
}
