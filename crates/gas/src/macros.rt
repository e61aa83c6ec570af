//! Macros: their parameters, and their text with arguments in place of these.

use crate::blanks::argument_length;
use crate::source::Place;
use itoa::Buffer;
use std::alloc::{AllocError, Global};

/// What a macro calls an argument, and what it is where none is given.
#[derive(Drop)]
pub struct Parameter {
    name: Vec<u8>,
    default: Vec<u8>,
}

/// A macro.
#[derive(Drop)]
pub struct Macro {
    pub name: Vec<u8>,
    pub parameters: Vec<Parameter>,
    pub body: Vec<u8>,
    /// The first line of its body.
    pub place: Place,
}

fn is_of_name(c: u8) -> bool {
    c.is_ascii_alphanumeric() || matches!(c, b'_' | b'.' | b'$')
}

// The name that a text begins with.
fn name_at(text: &[u8]) -> &[u8] {
    let length = text.iter().take_while(|c| is_of_name(**c)).count();
    match text.get(..length) {
        Some(name) => name,
        None => text,
    }
}

// What comes after that many characters.
fn after(text: &[u8], count: usize) -> &[u8] {
    match text.get(count..) {
        Some(rest) => rest,
        None => &[],
    }
}

/// A text without the quotes around it.
pub(crate) fn unquoted(text: &[u8]) -> &[u8] {
    match text {
        [b'"', inner @ .., b'"'] => inner,
        _ => text,
    }
}

/// The arguments that a text lists: commas are between them, or blanks between two words.
pub(crate) fn arguments<'t>(alloc: Global, text: &'t [u8]) -> Result<Vec<&'t [u8]>, AllocError> {
    let mut arguments = Vec::new(alloc);
    let mut rest = text.trim_ascii();
    if rest.is_empty() {
        return Ok(arguments);
    }
    for _ in 0..text.len() {
        let length = argument_length(rest);
        let (argument, more) = rest.split_at(length.min(rest.len()));
        arguments.push(unquoted(argument.trim_ascii()))?;
        rest = match more.trim_ascii_start() {
            [] => break,
            [b',', more @ ..] => more.trim_ascii_start(),
            more => more,
        };
    }
    Ok(arguments)
}

// A parameter as it is written: name, name=default, or name:req.
fn read_parameter(alloc: Global, text: &[u8]) -> Result<Parameter, AllocError> {
    let name = name_at(text);
    let default = match after(text, name.len()).trim_ascii_start() {
        [b'=', default @ ..] => unquoted(default.trim_ascii()),
        _ => &[],
    };
    Ok(Parameter {
        name: name.to_vec(alloc)?,
        default: default.to_vec(alloc)?,
    })
}

/// The parameters that a text lists.
pub(crate) fn parameters(alloc: Global, text: &[u8]) -> Result<Vec<Parameter>, AllocError> {
    let mut parameters = Vec::new(alloc);
    for text in &arguments(alloc, text)? {
        parameters.push(read_parameter(alloc, text)?)?;
    }
    Ok(parameters)
}

/// The name of a macro that `.macro` defines, and the text of its parameters.
pub(crate) fn heading(text: &[u8]) -> (&[u8], &[u8]) {
    let text = text.trim_ascii();
    let name = name_at(text);
    match after(text, name.len()).trim_ascii_start() {
        [b',', rest @ ..] => (name, rest),
        rest => (name, rest),
    }
}

// The value of an argument that is written as name=value, for that name.
fn value_for<'t>(argument: &'t [u8], name: &[u8]) -> Option<&'t [u8]> {
    match argument.strip_prefix(name)? {
        [b'=', value @ ..] => Some(unquoted(value.trim_ascii())),
        _ => None,
    }
}

impl Macro {
    // Whether an argument names the parameter that it is for.
    fn is_named(&self, argument: &[u8]) -> bool {
        self.parameters.iter().any(|parameter| value_for(
            argument,
            parameter.name.as_slice(),
        ).is_some())
    }

    // The argument for a parameter, by its name or else by its index.
    fn argument<'t>(
        &self,
        parameter: &Parameter,
        index: usize,
        arguments: &[&'t [u8]],
    ) -> Option<&'t [u8]> {
        for argument in arguments {
            if let Some(value) = value_for(*argument, parameter.name.as_slice()) {
                return Some(value);
            }
        }
        match arguments.get(index) {
            Some(argument) if !argument.is_empty() && !self.is_named(*argument) => Some(*argument),
            _ => None,
        }
    }

    // What a name after a backslash stands for.
    fn value<'t>(&'t self, name: &[u8], arguments: &[&'t [u8]]) -> Option<&'t [u8]> {
        for (index, parameter) in self.parameters.iter().enumerate() {
            if parameter.name.as_slice() == name {
                return match self.argument(parameter, index, arguments) {
                    Some(argument) => Some(argument),
                    None => Some(parameter.default.as_slice()),
                };
            }
        }
        None
    }

    // Adds what a text after a backslash stands for, and returns how many characters it has.
    fn add(
        &self,
        text: &mut Vec<u8>,
        rest: &[u8],
        arguments: &[&[u8]],
        count: usize,
    ) -> Result<usize, AllocError> {
        let mut buffer = Buffer::new();
        match rest {
            [b'@', ..] => {
                text.extend_from_slice(buffer.format(count).as_bytes())?;
                return Ok(1);
            }
            [b'(', b')', ..] => return Ok(2),
            _ => {}
        }
        let name = name_at(rest);
        match self.value(name, arguments) {
            Some(value) => {
                text.extend_from_slice(value)?;
                Ok(name.len())
            }
            None => {
                text.push(b'\\')?;
                Ok(0)
            }
        }
    }

    /// The body with arguments in place of its parameters, up to about that many bytes.
    pub(crate) fn expanded(
        &self,
        alloc: Global,
        arguments: &[&[u8]],
        count: usize,
        most: usize,
    ) -> Result<Vec<u8>, AllocError> {
        let mut text = Vec::new(alloc);
        let mut rest = self.body.as_slice();
        for _ in 0..self.body.len() {
            let length = rest.iter().take_while(|c| **c != b'\\').count();
            let (plain, more) = rest.split_at(length.min(rest.len()));
            text.extend_from_slice(plain)?;
            let [_backslash, more @ ..] = more else {
                break;
            };
            if text.len() > most {
                break;
            }
            let taken = self.add(&mut text, more, arguments, count)?;
            rest = after(more, taken);
        }
        Ok(text)
    }
}

/// A text that many times, unless it has too many bytes.
pub(crate) fn repeated(
    alloc: Global,
    body: &[u8],
    count: usize,
    most: usize,
) -> Result<Option<Vec<u8>>, AllocError> {
    if body.len().saturating_add(1).saturating_mul(count) > most {
        return Ok(None);
    }
    let mut text = Vec::new(alloc);
    for _ in 0..count {
        text.extend_from_slice(body)?;
    }
    Ok(Some(text))
}
