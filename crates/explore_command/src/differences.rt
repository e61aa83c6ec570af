//! In what outcomes differ.

use crate::nodes::{KEPT, Node};
use crate::shown::Shown;
use std::fmt;
use std::fmt::Display;
use tracetext::Quoted;

/// How many values are printed at most.
const MOST: usize = 4;

/// What is written before the first difference, and before each further one.
const FIRST: &str = ": ";

const FURTHER: &str = "; ";

/// A byte string as text.
#[derive(Clone, Copy)]
pub(crate) struct Latin<'a>(pub(crate) &'a [u8]);

impl fmt::Display for Latin<'_> {
    fn fmt<W: fmt::Write>(&self, f: &mut fmt::Formatter<W>) -> fmt::Result {
        for byte in self.0 {
            f.write_char(char::from(*byte))?;
        }
        Ok(())
    }
}

// What a path has in an outcome.
#[derive(Clone, Copy)]
struct Value<'a>(Option<&'a Node>);

impl Value<'_> {
    fn is_same(&self, other: &Value<'_>) -> bool {
        match (self.0, other.0) {
            (Some(node), Some(its)) => node.is_same(its),
            (None, None) => true,
            _ => false,
        }
    }
}

impl fmt::Display for Value<'_> {
    fn fmt<W: fmt::Write>(&self, f: &mut fmt::Formatter<W>) -> fmt::Result {
        let Some(node) = self.0 else {
            return f.write_str("nothing");
        };
        if node.is_directory() {
            return f.write_str("a directory");
        }
        let size = node.stat.size as usize;
        if size > KEPT {
            let sum = node.sum % 0x1_0000_0000;
            return write!(f, "{size} bytes ({sum:08x})");
        }
        let bytes = node.front.as_slice();
        Quoted {
            bytes,
            is_cut: false,
        }
        .fmt(f)
    }
}

// What an outcome has at a path.
fn value_at<'a>(shown: &'a Shown, path: &[u8]) -> Value<'a> {
    for node in &shown.nodes {
        if node.path.as_slice() == path {
            return Value(Some(node));
        }
    }
    Value(None)
}

/// In what outcomes differ, in a line.
#[derive(Clone, Copy)]
pub(crate) struct Differences<'a>(pub(crate) &'a [Shown]);

impl<'a> Differences<'a> {
    // Whether the consoles differ.
    fn have_other_consoles(&self) -> bool {
        let Some((first, others)) = self.0.split_first() else {
            return false;
        };
        others.iter().any(|shown| shown.console.as_slice() != first.console.as_slice())
    }

    // Whether process 1 ends otherwise.
    fn have_other_statuses(&self) -> bool {
        let Some((first, others)) = self.0.split_first() else {
            return false;
        };
        others.iter().any(|shown| shown.status != first.status)
    }

    // Whether a path has the same in all outcomes.
    fn is_same_at(&self, path: &[u8]) -> bool {
        let Some((first, others)) = self.0.split_first() else {
            return true;
        };
        let value = value_at(first, path);
        for shown in others {
            if !value_at(shown, path).is_same(&value) {
                return false;
            }
        }
        true
    }

    // Whether one of the first outcomes has the same value at a path.
    fn is_told(&self, count: usize, path: &[u8], value: &Value<'_>) -> bool {
        for shown in self.0.iter().take(count) {
            if value_at(shown, path).is_same(value) {
                return true;
            }
        }
        false
    }

    // Writes what a path has, each value once.
    fn write_values<W: fmt::Write>(
        &self,
        f: &mut fmt::Formatter<W>,
        path: &'a [u8],
    ) -> fmt::Result {
        write!(f, "{} has ", Latin(path))?;
        let mut told: usize = 0;
        for (number, shown) in self.0.iter().enumerate() {
            let value = value_at(shown, path);
            if self.is_told(number, path, &value) {
                continue;
            }
            if told == MOST {
                return f.write_str(", or more");
            }
            f.write_str(if told == 0 { "" } else { ", or " })?;
            value.fmt(f)?;
            told = told.saturating_add(1);
        }
        Ok(())
    }

    // Writes the paths of an outcome that differ and that none of those before it has.
    fn write_paths<W: fmt::Write>(
        &self,
        f: &mut fmt::Formatter<W>,
        number: usize,
        shown: &'a Shown,
        between: &mut &'static str,
    ) -> fmt::Result {
        for node in &shown.nodes {
            let path = node.path.as_slice();
            let is_new = number == 0 || !self.is_there(number, path);
            if is_new && !self.is_same_at(path) {
                f.write_str(*between)?;
                *between = FURTHER;
                self.write_values(f, path)?;
            }
        }
        Ok(())
    }

    // Whether one of the first outcomes has a path.
    fn is_there(&self, count: usize, path: &[u8]) -> bool {
        for shown in self.0.iter().take(count) {
            if value_at(shown, path).0.is_some() {
                return true;
            }
        }
        false
    }
}

impl fmt::Display for Differences<'_> {
    fn fmt<W: fmt::Write>(&self, f: &mut fmt::Formatter<W>) -> fmt::Result {
        f.write_str("differ in")?;
        let mut between = FIRST;
        if self.have_other_consoles() {
            write!(f, "{between}console")?;
            between = FURTHER;
        }
        if self.have_other_statuses() {
            write!(f, "{between}status")?;
            between = FURTHER;
        }
        for (number, shown) in self.0.iter().enumerate() {
            self.write_paths(f, number, shown, &mut between)?;
        }
        if between == FIRST {
            f.write_str(": the numbers of files, or the order of their names")?;
        }
        f.write_str("\n")
    }
}
