//! One step of a hart: fetch, decode, execute.
//!
//! From the RISC-V unprivileged manual, its chapters on RV32I, RV64I and the extension M. An instruction that raises a
//! trap changes nothing; the address that comes with it is the target of a jump, the accessed address of a load or
//! store, and else the pc.
ghost use Rattle.std.specs.Prelude.{◌≡◌, Some, None, length, IfSome, IfNone};
ghost use Rattle.unixmodel.specs.Translation.{HoldsInside, IsAnswer, IsKept};
ghost use Rattle.hart.specs.Answered.{IsFetched, IsStep, cycle_by};
ghost use Rattle.hart.specs.Follows.{Steps};

use crate::access::{locate, place};
use crate::decoding::flatten;
use crate::in_page::Pc;
use crate::state::Hart;
use ram::Ram;
use sv39::Translate;
use unixmodel::trap::{Access, Cause, Trap};

/// The caller of `act` that does a single instruction.
pub struct Alone;

impl Hart {
    /// The word at the pc, or `None` where it may not be fetched.
    #[inline]
    #[tactic(auto, using(crate::proofs::Bytes::number_of_word))]
    fn fetch<T: Translate>(&self, ram: &Ram, trans: &mut T) -> Option<u32>
        requires { HoldsInside (T.held trans.old) ram.now }
        ensures fault { IfNone result
            (IsAnswer (T.held trans.old) ram.now self.now.root.0 self.now.pc Access.Fetch None) }
        ensures word { IfSome result (IsFetched (T.held trans.old) ram.now self.now) }
        ensures kept { IsKept (T.held trans.old) (T.held trans.new) ram.now self.now.root.0 }
    {
        let f = locate(trans, ram, self.root, self.pc, Access::Fetch)?;
        Some(ram.load_u32(f, place(self.pc)))
    }

    /// Fetches, decodes and executes one instruction.
    #[inline(always)]
    fn cycle<T: Translate>(&mut self, ram: &mut Ram, trans: &mut T) -> Option<Trap>
        requires { HoldsInside (T.held trans.old) ram.old }
        ensures step { IsStep (T.held trans.old) (cycle_by self.old.registers self.old.pc) result self.old self.new
            ram.old ram.new }
        ensures kept { IsKept (T.held trans.old) (T.held trans.new) ram.old self.old.root.0 }
        ensures count { length ram.new ≡ length ram.old }
    {
        let pc = self.pc;
        let Some(word) = self.fetch(ram, trans) else {
            return Some(Trap {
                cause: Cause::InstructionPageFault,
                address: pc,
            });
        };
        let next = self.act::<T, Alone>(&flatten(word), Pc::of(pc), ram, trans);
        match next.after(pc) {
            Ok(after) => {
                self.pc = after;
                None
            }
            Err(trap) => Some(trap),
        }
    }

    /// Does one instruction, or says why it isn't done.
    ///
    /// The clause on `IsStep` holds whatever the tables are, and for every translator; `trap` is a part of it. `step`
    /// is what follows where all results that the translator may return are those of a mapping: then the registers, the
    /// pc and the frames are the instruction's on the memory which that mapping shows.
    #[inline(always)]
    pub fn step<T: Translate>(&mut self, ram: &mut Ram, trans: &mut T) -> Option<Trap>
        requires { HoldsInside (T.held trans.old) ram.old }
        ensures { Steps (T.held trans.old) (T.held trans.new) result self.old self.new ram.old ram.new }
    {
        self.cycle(ram, trans)
    }
}
