//! Compares the names of a job's files, as the host does.
ghost use Rattle.std.specs.Prelude.{◌<◌, IfNone, IsFalse, length};
ghost use Rattle.commandline.specs.Names.{Name, others_of, outputs_of};
ghost use Rattle.jobfiles.specs.Apart.{AreApart, IsApart, IsApartAt, IsOther};

use commandline::{Job, Names, names_of};
use host::Host;

// Whether there is another name, and it is of the same file.
fn is_same<H: Host>(name: &str, other: Option<&str>, host: &mut H) -> bool
    ensures { IsFalse result → IsOther name.now other.entry }
{
    match other {
        Some(other) => host.is_same(name, other),
        None => false,
    }
}

// Whether one of these names is of the same file.
fn is_among<H: Host>(name: &str, others: &[Option<&str>], host: &mut H) -> bool
    ensures { IsFalse result → IsApart name.now others.now }
{
    for other in others {
        if is_same(name, *other, host) {
            return true;
        }
    }
    false
}

// The output at this index, if one of the later ones or of the other names is of the same file.
fn taken<'a, H: Host>(
    outputs: &[Option<&'a str>],
    index: usize,
    others: &[Option<&str>],
    host: &mut H,
) -> Option<&'a str>
    requires { index < length outputs.now }
    ensures { IfNone result ((default : Name) → IsApartAt outputs.now others.now index default) }
{
    if let Some(name) = outputs[index]
        && (is_among(name, &outputs[index + 1..], host) || is_among(name, others, host))
    {
        return Some(name);
    }
    None
}

/// The first output of a job that is another file that its words name: one of the two would be lost.
pub fn named_twice<'a, H: Host>(job: &Job<'a>, host: &mut H) -> Option<&'a str>
    ensures { IfNone result (AreApart (outputs_of job.now) (others_of job.now)) }
{
    let Names { outputs, others } = names_of(job);
    for index in 0..outputs.len() {
        if let Some(name) = taken(&outputs, index, &others, host) {
            return Some(name);
        }
    }
    None
}
