//! What comes of files that are replaced.
mod folders;
mod held;
mod replacing;

use std::process::Abort;

// The subject and the row that are tried.
type Name<'a> = (&'a str, &'a str);

// This has to hold in the row that is tried.
fn expect_that(rt: &impl Abort, name: Name<'_>, what: &str, holds: bool) {
    let (subject, row) = name;
    assert!(rt; holds, "{subject}: {row}: {what}");
}
