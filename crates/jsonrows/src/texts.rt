//! Texts.

use serde::{Described, Serialize, Serializer};
use std::fmt;
use std::fmt::Display;

/// A value as the text that it prints.
#[derive(Clone, Copy)]
pub struct Printed<V>(pub V);

impl<V: Display> Described for Printed<V> {}

impl<V: Display> Serialize for Printed<V> {
    fn serialize<S: Serializer>(&self, out: &mut S) -> Result<(), S::Error> {
        out.collect_str(&self.0)
    }
}

/// Bytes as a text: each is the character with its code.
#[derive(Clone, Copy)]
pub struct Latin<'a>(pub &'a [u8]);

impl Display for Latin<'_> {
    fn fmt<W: fmt::Write>(&self, f: &mut fmt::Formatter<W>) -> fmt::Result {
        for byte in self.0 {
            f.write_char(char::from(*byte))?;
        }
        Ok(())
    }
}

impl Described for Latin<'_> {}

impl Serialize for Latin<'_> {
    fn serialize<S: Serializer>(&self, out: &mut S) -> Result<(), S::Error> {
        out.collect_str(self)
    }
}

/// Bytes that are kept, as the same text.
#[derive(Drop)]
pub struct Bytes(pub Vec<u8>);

impl Described for Bytes {}

impl Serialize for Bytes {
    fn serialize<S: Serializer>(&self, out: &mut S) -> Result<(), S::Error> {
        Latin(self.0.as_slice()).serialize(out)
    }
}
