//! The last calls of a process.
ghost use Rattle.std.specs.Prelude.{◌≡◌, ◌∷◌, [], None, Some};
ghost use Rattle.reports.specs.LastCalls.{answered, begun};

use arrayvec::ArrayVec;
use jsonrows::{Argument, MOST_ARGUMENTS, arguments_of};
use std::fmt;
use tracetext::{Asked, CallName};

/// How many calls of a process are kept.
pub(crate) const MOST_CALLS: usize = 4;

/// A call that a process made, and its answer, if it has returned.
#[derive(Clone, Copy)]
pub struct Made {
    pub(crate) asked: Asked,
    pub(crate) answer: Option<i64>,
}

/// The last calls of a process, in their order.
#[derive(Clone, Copy)]
pub struct LastCalls {
    first: Option<Made>,
    second: Option<Made>,
    third: Option<Made>,
    last: Option<Made>,
}

impl LastCalls {
    /// No call.
    pub(crate) fn new() -> LastCalls {
        LastCalls {
            first: None,
            second: None,
            third: None,
            last: None,
        }
    }

    /// A call is made.
    pub(crate) fn begin(&mut self, asked: Asked)
        ensures { self.new ≡ begun asked self.old }
    {
        self.first = self.second;
        self.second = self.third;
        self.third = self.last;
        self.last = Some(Made {
            asked,
            answer: None,
        });
    }

    /// The last call has returned this, if its answer was not known.
    pub(crate) fn answer(&mut self, answer: i64)
        ensures { self.new ≡ answered answer self.old }
    {
        if let Some(made) = self.last
            && made.answer.is_none()
        {
            self.last = Some(Made {
                asked: made.asked,
                answer: Some(answer),
            });
        }
    }

    /// The calls, with nothing in place of those that were not made.
    pub(crate) fn all(&self) -> [Option<Made>; MOST_CALLS]
        ensures { result ≡ self.now.first ∷ self.now.second ∷ self.now.third ∷ self.now.last ∷ [] }
    {
        [self.first, self.second, self.third, self.last]
    }
}

impl Made {
    /// The arguments.
    pub(crate) fn arguments(&self) -> ArrayVec<Argument, MOST_ARGUMENTS> {
        let [a0, a1, a2, ..] = self.asked.arguments;
        arguments_of(self.asked.call(), a0, a1, a2)
    }
}

/// As `812: open(0x90, 0) = 3`.
impl fmt::Display for Made {
    fn fmt<W: fmt::Write>(&self, f: &mut fmt::Formatter<W>) -> fmt::Result {
        let (at, name) = (self.asked.at, CallName(self.asked.number));
        write!(f, "{at}: {name}(")?;
        for (place, argument) in self.arguments().as_slice().iter().enumerate() {
            if place > 0 {
                f.write_str(", ")?;
            }
            write!(f, "{argument}")?;
        }
        match self.answer {
            Some(answer) => write!(f, ") = {answer}"),
            None => f.write_char(')'),
        }
    }
}
