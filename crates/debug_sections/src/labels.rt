//! The symbol table, and the names that it has.

ghost use Rattle.std.specs.Prelude.{◌≡◌, OnOk};
ghost use Rattle.debug_sections.specs.Labels.{with_label, with_labels, with_names};

use crate::numbers::{put_double, put_half, put_word, small};
use crate::tables::Label;
use std::alloc::AllocError;

/// How many bytes an entry has.
pub(crate) const ENTRY_SIZE: u64 = 24;

// The index of the section that has the program's bytes.
const PROGRAM: u16 = 1;

// Adds a label (`STB_LOCAL`, `STT_NOTYPE`), whose name is at an offset.
#[tactic(auto, unfolding(crate::specs::Labels::with_label))]
fn put_label(out: &mut Vec<u8>, label: &Label<'_>, name: u64) -> Result<(), AllocError>
    ensures { OnOk result (out.new.items ≡ with_label out.old.items label.now name) }
{
    put_word(out, small(name))?;
    put_half(out, 0)?;
    put_half(out, PROGRAM)?;
    put_double(out, label.address)?;
    put_double(out, 0)?;
    Ok(())
}

/// Adds the section `.symtab`: an entry of zeros, and the labels.
#[tactic(auto, unfolding(crate::specs::Labels::labels_from, crate::specs::Labels::with_labels))]
pub(crate) fn put_labels(out: &mut Vec<u8>, labels: &[Label<'_>]) -> Result<(), AllocError>
    ensures { OnOk result (out.new.items ≡ with_labels out.old.items labels.now) }
{
    out.extend_from_slice(&[0; 24])?;
    let mut name = 1u64;
    for label in labels {
        put_label(out, label, name)?;
        name = name
            .saturating_add(label.name.len() as u64)
            .saturating_add(1);
    }
    Ok(())
}

/// Adds the section `.strtab`: an empty name, and those of the labels.
#[tactic(auto, unfolding(crate::specs::Labels::names_from, crate::specs::Labels::with_names))]
pub(crate) fn put_names(out: &mut Vec<u8>, labels: &[Label<'_>]) -> Result<(), AllocError>
    ensures { OnOk result (out.new.items ≡ with_names out.old.items labels.now) }
{
    out.push(0)?;
    for label in labels {
        out.extend_from_slice(label.name)?;
        out.push(0)?;
    }
    Ok(())
}
