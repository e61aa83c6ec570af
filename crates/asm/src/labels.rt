//! The labels of a text, for their lines to be looked up.
ghost use Rattle.std.specs.Prelude.{◌≡◌, IfOk, OnOk, Some, map, option_map};
ghost use Rattle.unixmodel.specs.Assembly as the;
ghost use Rattle.asmtext.specs.Statements.{label_seen};
ghost use Rattle.asm.specs.Labels.{Finds, Notes};
ghost use Rattle.asm.specs.Placed.{placed_seen};

use crate::layout::Placed;
use std::alloc::{AllocError, Global};
use std::collections::HashMap;

/// Of each label the index of the first line with it.
pub type Labels<'a> = HashMap<&'a [u8], usize>;

// Notes the label of the line of this index, unless an earlier line has it.
fn note<'a>(
    labels: &mut Labels<'a>,
    label: Option<&'a [u8]>,
    index: usize,
) -> Result<(), AllocError>
    ensures { OnOk result (Notes labels.old labels.new (label_seen label.entry) index) }
{
    let Some(label) = label else {
        return Ok(());
    };
    if !labels.contains_key(label) {
        labels.insert(label, index)?;
    }
    Ok(())
}

/// The labels of lines.
pub fn labels<'a>(alloc: Global, placed: &[Placed<'a>]) -> Result<Labels<'a>, AllocError>
    ensures { IfOk result (λ labels. Finds labels (map placed_seen placed.now)) }
{
    let mut labels = HashMap::new(alloc);
    for (index, line) in placed.iter().enumerate() {
        note(&mut labels, line.line.label, index)?;
    }
    Ok(labels)
}

/// The first line with the label.
pub fn definition<'p, 'a>(
    placed: &'p [Placed<'a>],
    labels: &Labels<'a>,
    name: &[u8],
) -> Option<&'p Placed<'a>>
    requires { Finds labels.now (map placed_seen placed.now) }
    ensures { option_map (λ first. placed_seen first.now) result
        ≡ the.definition (map placed_seen placed.now) name.now }
{
    let index = labels.get(name)?;
    placed.get(*index)
}
