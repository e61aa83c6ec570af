//! How an expression is evaluated.
ghost use Rattle.std.specs.Prelude.{◌≡◌};

use crate::decoding::decode;
use crate::operation::{Operation, Width, apply_binary, apply_unary};
use arrayvec::ArrayVec;

/// How many operations are done at most.
pub const MOST_STEPS: u32 = 10_000;

// How many numbers the stack holds.
const DEPTH: usize = 64;

/// What an expression sees of a process.
pub trait Sight {
    /// A register, by gdb's number; `None` where there is none.
    fn register(&self, number: u16) -> Option<u64>;

    /// The bytes from an address on, as a number whose lowest byte comes first; `None` where some may not be read.
    fn load(&self, address: u64, width: Width) -> Option<u64>;
}

// Where an expression goes on.
enum Flow {
    Next,
    To(u16),
    End(u64),
}

// The numbers of an expression, the top last.
#[derive(Drop)]
struct Stack {
    numbers: ArrayVec<u64, DEPTH>,
}

impl Stack {
    fn push(&mut self, number: u64) -> Option<()> {
        self.numbers.try_push(number).ok()
    }

    fn pop(&mut self) -> Option<u64> {
        self.numbers.pop()
    }

    // The number that many below the top.
    fn below(&self, depth: usize) -> Option<u64> {
        let above = depth.checked_add(1)?;
        let index = self.numbers.len().checked_sub(above)?;
        self.numbers.as_slice().get(index).copied()
    }

    // The top two numbers come the other way round.
    fn swap(&mut self) -> Option<()> {
        let top = self.pop()?;
        let next = self.pop()?;
        self.push(top)?;
        self.push(next)
    }

    // The third number comes on the top.
    fn rotate(&mut self) -> Option<()> {
        let first = self.pop()?;
        let second = self.pop()?;
        let third = self.pop()?;
        self.push(second)?;
        self.push(first)?;
        self.push(third)
    }

    // Does an operation; `None` where it can't be done.
    fn perform<S: Sight>(&mut self, operation: Operation, sight: &S) -> Option<Flow> {
        match operation {
            Operation::Binary(op) => {
                let b = self.pop()?;
                let a = self.pop()?;
                self.push(apply_binary(op, a, b)?)?;
            }
            Operation::Unary(op) => {
                let a = self.pop()?;
                self.push(apply_unary(op, a))?;
            }
            Operation::Load(width) => {
                let address = self.pop()?;
                self.push(sight.load(address, width)?)?;
            }
            Operation::Constant(number) => self.push(number)?,
            Operation::Register(number) => self.push(sight.register(number)?)?,
            Operation::Duplicate => self.push(self.below(0)?)?,
            Operation::Pick(depth) => self.push(self.below(usize::from(depth))?)?,
            Operation::Drop => {
                self.pop()?;
            }
            Operation::Swap => self.swap()?,
            Operation::Rotate => self.rotate()?,
            Operation::Jump(to) => return Some(Flow::To(to)),
            Operation::JumpIf(to) => {
                if self.pop()? != 0 {
                    return Some(Flow::To(to));
                }
            }
            Operation::End => return Some(Flow::End(self.below(0)?)),
        }
        Some(Flow::Next)
    }
}

/// The number on the top where the expression ends; `None` where it is ill-formed, needs what isn't there, or takes
/// more than `MOST_STEPS` operations.
pub(crate) fn evaluate<S: Sight>(code: &[u8], sight: &S) -> Option<u64> {
    let mut stack = Stack {
        numbers: ArrayVec::new(),
    };
    let mut at = 0;
    for _step in 0..MOST_STEPS {
        let rest = code.get(at..)?;
        let decoded = decode(rest)?;
        match stack.perform(decoded.operation, sight)? {
            Flow::Next => at += decoded.length,
            Flow::To(to) => at = usize::from(to),
            Flow::End(number) => return Some(number),
        }
    }
    None
}

/// Whether a condition holds. One that has no value holds: who asked looks itself then.
pub fn holds<S: Sight>(code: &[u8], sight: &S) -> bool {
    evaluate(code, sight) != Some(0)
}
