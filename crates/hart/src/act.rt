//! Operations are executed: each does what its instruction means.
//!
//! The pc is an argument, and where to go on is the result, so that a loop over operations has the pc in a register.
ghost use Rattle.std.specs.Prelude.{◌≡◌, ◌%◌, ◌/◌, ◌<◌, ◌+◌, ◌*◌, ◌^◌, ◌==◌, ◌≤◌, ℕ, if◌then◌else◌, Some, None};
ghost use Rattle.std.specs.Prelude.{slice_index, length, IfSome, MatchResult};
ghost use Rattle.unixmodel.specs.Meaning.{jump, set_register, write};
ghost use Rattle.unixmodel.specs.Numbers.{extend, plus};
ghost use Rattle.unixmodel.specs.Translation.{HoldsInside};
ghost use Rattle.hart.specs.Acts.{Operates, Turns, goes_to, pc_after, seen_live, store_of, trap_of};
ghost use Rattle.hart.specs.Answered.{load_by, store_by};
ghost use Rattle.hart.specs.Stops.{pc_at};
ghost use Rattle.hart.specs.Operations.{by_branch, by_registers, by_words, offset_by, op_by};

use crate::access::{is_aligned, load_size, load_value, locate, place, store_size, store_value};
use crate::in_page::{Doubleword, InPage, Pc};
use crate::live::Live;
use crate::operation::{Op, Target};
use crate::state::Hart;
use crate::{alu, bits};
use ram::{FrameNo, Ram};
use std::marker::Model;
use sv39::Translate;
use unixmodel::instr::{BranchOp, LoadOp, Reg, RegOp, RegOpW, StoreOp};
use unixmodel::trap::{Access, Cause, Trap};

/// The address of an instruction: a multiple of 4.
#[derive(Clone, Copy)]
pub struct Aligned {
    address: u64,
}

impl Model for Aligned {
    ghost use Rattle.std.specs.Prelude.{ℕ, ◌≡◌, ◌%◌};

    ghost Value = { ℕ };

    ghost view = { λ a. a.address };

    ghost invariant = { λ a. a.address % 4 ≡ 0 };

    ghost inverse = { λ n. record { address = n } };
}

impl Aligned {
    #[inline(always)]
    fn new(address: u64) -> Option<Aligned>
        ensures { result ≡ (if address % 4 == 0 then Some address else None) }
    {
        if address % 4 != 0 {
            return None;
        }
        Some(Aligned { address })
    }

    /// The number.
    #[inline(always)]
    pub fn address(self) -> u64
        ensures is { result ≡ self }
        ensures aligned { result % 4 ≡ 0 }
    {
        self.address
    }
}

/// Where a hart goes on: at the next instruction, also after a store to a doubleword of a frame, or at a word of the
/// same page, or at an address, or nowhere, since a trap was raised.
#[derive(Clone, Copy)]
pub enum Next {
    Behind,
    Stored(FrameNo, Doubleword),
    Within(InPage),
    At(Aligned),
    Stop(Trap),
}

impl Next {
    /// The pc after an instruction at a pc, or the trap of one that isn't done.
    #[inline(always)]
    pub fn after(self, pc: u64) -> Result<u64, Trap>
        ensures { MatchResult result (λ to. (trap_of self ≡ None) × (to ≡ pc_after self pc))
            (λ t. trap_of self ≡ Some t) }
    {
        match self {
            Next::Behind => Ok(pc.wrapping_add(4)),
            Next::Stored(_, _) => Ok(pc.wrapping_add(4)),
            Next::Within(to) => Ok(to.address()),
            Next::At(to) => Ok(to.address()),
            Next::Stop(trap) => Err(trap),
        }
    }

    /// The same, but of stores only one to a frame whose page is known is reported.
    #[inline(always)]
    pub fn seen_live(self, live: &Live) -> Next
        ensures { result ≡ seen_live self live.now.frames }
    {
        match self {
            Next::Behind => Next::Behind,
            Next::Stored(g, stored) => {
                if live.has(g.0) {
                    Next::Stored(g, stored)
                } else {
                    Next::Behind
                }
            }
            Next::Within(to) => Next::Within(to),
            Next::At(to) => Next::At(to),
            Next::Stop(trap) => Next::Stop(trap),
        }
    }

    /// The frame that was stored to, and the index of the first word of the doubleword there.
    #[inline(always)]
    pub fn stored(&self) -> Option<(FrameNo, usize)>
        ensures is { result ≡ store_of self.now }
        ensures place { IfSome result (λ r. (r.1 % 2 ≡ 0) × (r.1 + 2 ≤ 1024)) }
    {
        match *self {
            Next::Behind => None,
            Next::Stored(f, stored) => Some((f, stored.word())),
            Next::Within(_) => None,
            Next::At(_) => None,
            Next::Stop(_) => None,
        }
    }

    /// The trap that was raised.
    #[inline(always)]
    pub fn trap(&self) -> Option<Trap>
        ensures { result ≡ trap_of self.now }
    {
        match *self {
            Next::Behind => None,
            Next::Stored(_, _) => None,
            Next::Within(_) => None,
            Next::At(_) => None,
            Next::Stop(trap) => Some(trap),
        }
    }

    /// Where a program goes on that is at this address if nothing jumped.
    #[inline(always)]
    pub fn address(&self, pc: u64) -> u64
        ensures { result ≡ goes_to pc self.now }
    {
        match *self {
            Next::Behind => pc,
            Next::Stored(_, _) => pc,
            Next::Within(to) => to.address(),
            Next::At(to) => to.address(),
            Next::Stop(_) => pc,
        }
    }
}

#[inline(always)]
fn stop(cause: Cause, address: u64) -> Next
    ensures { result ≡ Next.Stop (record { cause = cause; address = address }) }
{
    Next::Stop(Trap { cause, address })
}

impl Hart {
    #[inline(always)]
    fn read(&self, r: Reg) -> u64
        ensures { result ≡ slice_index self.now.registers r }
    {
        self.registers[r.bits() as usize]
    }

    // A register and an immediate.
    #[inline(always)]
    fn offset(&self, rs1: Reg, imm: u32) -> u64
        ensures { result ≡ offset_by self.now.registers rs1 imm }
    {
        self.read(rs1).wrapping_add(bits::extend_u32(imm))
    }

    #[inline(always)]
    fn write(&mut self, rd: Target, value: u64)
        ensures registers { self.new.registers ≡ write self.old.registers rd value }
        ensures pc { self.new.pc ≡ self.old.pc }
        ensures root { self.new.root ≡ self.old.root }
    {
        self.registers[rd.number() as usize] = value;
    }

    // Puts what an operation computed into rd.
    #[inline(always)]
    fn put(&mut self, rd: Target, value: u64) -> Next
        ensures { (pc : ℕ) → Turns (set_register self.old.registers pc rd value) result pc self.old self.new }
    {
        self.write(rd, value);
        Next::Behind
    }

    #[inline(always)]
    fn register(&mut self, op: RegOp, rd: Target, rs1: Reg, rs2: Reg) -> Next
        ensures { (pc : ℕ) → Turns (by_registers op rd rs1 rs2 self.old.registers pc) result pc self.old self.new }
    {
        self.put(rd, alu::register_op(op, self.read(rs1), self.read(rs2)))
    }

    #[inline(always)]
    fn word(&mut self, op: RegOpW, rd: Target, rs1: Reg, rs2: Reg) -> Next
        ensures { (pc : ℕ) → Turns (by_words op rd rs1 rs2 self.old.registers pc) result pc self.old self.new }
    {
        self.put(rd, alu::word_op(op, self.read(rs1), self.read(rs2)))
    }

    // A jump that leaves no address.
    #[inline(always)]
    fn go(&self, target: u64) -> Next
        ensures { (pc : ℕ) → Turns (jump self.now.registers pc 0 target) result pc self.now self.now }
    {
        match Aligned::new(target) {
            Some(to) => Next::At(to),
            None => stop(Cause::InstructionMisaligned, target),
        }
    }

    // One to an offset from the pc.
    #[inline(always)]
    fn go_by(&self, pc: Pc, imm: u32) -> Next
        ensures { Turns (jump self.now.registers (pc_at pc.base pc.index) 0
            (plus (pc_at pc.base pc.index) (extend 32 imm))) result (pc_at pc.base pc.index) self.now self.now }
    {
        match pc.word_by(imm) {
            Some(to) => Next::Within(to),
            None => self.go(pc.address().wrapping_add(bits::extend_u32(imm))),
        }
    }

    // One that leaves the address of the next instruction.
    #[inline(always)]
    fn link(&mut self, rd: Target, pc: u64, target: u64) -> Next
        ensures { Turns (jump self.old.registers pc rd target) result pc self.old self.new }
    {
        let Some(to) = Aligned::new(target) else {
            return stop(Cause::InstructionMisaligned, target);
        };
        self.write(rd, pc.wrapping_add(4));
        Next::At(to)
    }

    // One to an offset from the pc that leaves the address of the next instruction.
    #[inline(always)]
    fn link_by(&mut self, rd: Target, pc: Pc, imm: u32) -> Next
        ensures { Turns (jump self.old.registers (pc_at pc.base pc.index) rd
            (plus (pc_at pc.base pc.index) (extend 32 imm))) result (pc_at pc.base pc.index) self.old self.new }
    {
        let after = pc.address().wrapping_add(4);
        match pc.word_by(imm) {
            Some(to) => {
                self.write(rd, after);
                Next::Within(to)
            }
            None => self.link(
                rd,
                pc.address(),
                pc.address().wrapping_add(bits::extend_u32(imm)),
            ),
        }
    }

    // Only a branch that is taken can have a wrong target.
    #[inline(always)]
    fn go_if(&self, op: BranchOp, rs1: Reg, rs2: Reg, pc: Pc, imm: u32) -> Next
        ensures { Turns (by_branch op rs1 rs2 (extend 32 imm) self.now.registers (pc_at pc.base pc.index)) result
            (pc_at pc.base pc.index) self.now self.now }
    {
        if !alu::is_taken(op, self.read(rs1), self.read(rs2)) {
            return Next::Behind;
        }
        self.go_by(pc, imm)
    }

    // Reads memory into rd. A misaligned address is reported before a page fault.
    #[inline(always)]
    fn take<T: Translate>(
        &mut self,
        op: LoadOp,
        rd: Target,
        address: u64,
        ram: &Ram,
        trans: &mut T,
    ) -> Next
        requires { HoldsInside (T.held trans.old) ram.now }
        ensures { (pc : ℕ) → Operates (T.held trans.old) (T.held trans.new)
            (load_by self.old.registers pc op rd address) result pc self.old self.new ram.now ram.now }
    {
        if !is_aligned(address, load_size(op)) {
            return stop(Cause::LoadMisaligned, address);
        }
        match locate(trans, ram, self.root, address, Access::Load) {
            None => stop(Cause::LoadPageFault, address),
            Some(f) => self.put(rd, load_value(op, ram, f, place(address))),
        }
    }

    // Checks that memory may be read.
    #[inline(always)]
    fn probe<T: Translate>(&self, op: LoadOp, address: u64, ram: &Ram, trans: &mut T) -> Next
        requires { HoldsInside (T.held trans.old) ram.now }
        ensures { (pc : ℕ) → Operates (T.held trans.old) (T.held trans.new)
            (load_by self.now.registers pc op 0 address) result pc self.now self.now ram.now ram.now }
    {
        if !is_aligned(address, load_size(op)) {
            return stop(Cause::LoadMisaligned, address);
        }
        match locate(trans, ram, self.root, address, Access::Load) {
            None => stop(Cause::LoadPageFault, address),
            Some(_) => Next::Behind,
        }
    }

    // Writes a value's low bytes to memory. A misaligned address is reported before a page fault.
    #[inline(always)]
    fn give<T: Translate>(
        &self,
        op: StoreOp,
        address: u64,
        value: u64,
        ram: &mut Ram,
        trans: &mut T,
    ) -> Next
        requires { HoldsInside (T.held trans.old) ram.old }
        ensures { (pc : ℕ) → Operates (T.held trans.old) (T.held trans.new)
            (store_by self.now.registers pc op address value) result pc self.now self.now ram.old ram.new }
    {
        if !is_aligned(address, store_size(op)) {
            return stop(Cause::StoreMisaligned, address);
        }
        match locate(trans, ram, self.root, address, Access::Store) {
            None => stop(Cause::StorePageFault, address),
            Some(f) => {
                ram.frames_are_whole();
                store_value(op, ram, f, place(address), value);
                Next::Stored(f, Doubleword::of(address))
            }
        }
    }

    /// Does an operation at a pc. Each `Caller` has a copy of its own: a function this large is put in line only where
    /// it is called once, since the compiler drops the hint below for its size.
    #[inline(always)]
    #[tactic(auto, using(crate::proofs::Acts::op_acts), unfolding(crate::specs::Operations::op_by))]
    pub fn act<T: Translate, Caller>(
        &mut self,
        op: &Op,
        pc: Pc,
        ram: &mut Ram,
        trans: &mut T,
    ) -> Next
        requires { HoldsInside (T.held trans.old) ram.old }
        ensures { Operates (T.held trans.old) (T.held trans.new)
            (op_by op.now self.old.registers (pc_at pc.base pc.index)) result (pc_at pc.base pc.index) self.old self.new
            ram.old ram.new }
    {
        match *op {
            Op::Lui { rd, imm } => self.put(rd, bits::extend_u32(imm)),
            Op::Auipc { rd, imm } => self.put(rd, pc.address().wrapping_add(bits::extend_u32(imm))),
            Op::Jal { rd, imm } => self.link_by(rd, pc, imm),
            Op::J { imm } => self.go_by(pc, imm),
            Op::Jalr { rd, rs1, imm } => self.link(rd, pc.address(), self.offset(rs1, imm) / 2 * 2),
            Op::Jr { rs1, imm } => self.go(self.offset(rs1, imm) / 2 * 2),
            Op::Beq { rs1, rs2, imm } => self.go_if(BranchOp::Beq, rs1, rs2, pc, imm),
            Op::Bne { rs1, rs2, imm } => self.go_if(BranchOp::Bne, rs1, rs2, pc, imm),
            Op::Blt { rs1, rs2, imm } => self.go_if(BranchOp::Blt, rs1, rs2, pc, imm),
            Op::Bge { rs1, rs2, imm } => self.go_if(BranchOp::Bge, rs1, rs2, pc, imm),
            Op::Bltu { rs1, rs2, imm } => self.go_if(BranchOp::Bltu, rs1, rs2, pc, imm),
            Op::Bgeu { rs1, rs2, imm } => self.go_if(BranchOp::Bgeu, rs1, rs2, pc, imm),
            Op::Lb { rd, rs1, imm } => self.take(LoadOp::Lb, rd, self.offset(rs1, imm), ram, trans),
            Op::Lh { rd, rs1, imm } => self.take(LoadOp::Lh, rd, self.offset(rs1, imm), ram, trans),
            Op::Lw { rd, rs1, imm } => self.take(LoadOp::Lw, rd, self.offset(rs1, imm), ram, trans),
            Op::Ld { rd, rs1, imm } => self.take(LoadOp::Ld, rd, self.offset(rs1, imm), ram, trans),
            Op::Lbu { rd, rs1, imm } => self.take(
                LoadOp::Lbu,
                rd,
                self.offset(rs1, imm),
                ram,
                trans,
            ),
            Op::Lhu { rd, rs1, imm } => self.take(
                LoadOp::Lhu,
                rd,
                self.offset(rs1, imm),
                ram,
                trans,
            ),
            Op::Lwu { rd, rs1, imm } => self.take(
                LoadOp::Lwu,
                rd,
                self.offset(rs1, imm),
                ram,
                trans,
            ),
            Op::Probe { op, rs1, imm } => self.probe(op, self.offset(rs1, imm), ram, trans),
            Op::Sb { rs1, rs2, imm } => self.give(
                StoreOp::Sb,
                self.offset(rs1, imm),
                self.read(rs2),
                ram,
                trans,
            ),
            Op::Sh { rs1, rs2, imm } => self.give(
                StoreOp::Sh,
                self.offset(rs1, imm),
                self.read(rs2),
                ram,
                trans,
            ),
            Op::Sw { rs1, rs2, imm } => self.give(
                StoreOp::Sw,
                self.offset(rs1, imm),
                self.read(rs2),
                ram,
                trans,
            ),
            Op::Sd { rs1, rs2, imm } => self.give(
                StoreOp::Sd,
                self.offset(rs1, imm),
                self.read(rs2),
                ram,
                trans,
            ),
            Op::Addi { rd, rs1, imm } => self.put(rd, self.offset(rs1, imm)),
            Op::Slti { rd, rs1, imm } => self.put(
                rd,
                u64::from(alu::is_below(self.read(rs1), bits::extend_u32(imm))),
            ),
            Op::Sltiu { rd, rs1, imm } => self.put(
                rd,
                u64::from(self.read(rs1) < bits::extend_u32(imm)),
            ),
            Op::Xori { rd, rs1, imm } => self.put(rd, self.read(rs1) ^ bits::extend_u32(imm)),
            Op::Ori { rd, rs1, imm } => self.put(rd, self.read(rs1) | bits::extend_u32(imm)),
            Op::Andi { rd, rs1, imm } => self.put(rd, self.read(rs1) & bits::extend_u32(imm)),
            Op::Slli { rd, rs1, amount } => self.put(
                rd,
                self.read(rs1) << u32::from(amount.bits()),
            ),
            Op::Srli { rd, rs1, amount } => self.put(
                rd,
                self.read(rs1) >> u32::from(amount.bits()),
            ),
            Op::Srai { rd, rs1, amount } => self.put(
                rd,
                alu::sra(self.read(rs1), u32::from(amount.bits())),
            ),
            Op::Add { rd, rs1, rs2 } => self.register(RegOp::Add, rd, rs1, rs2),
            Op::Sub { rd, rs1, rs2 } => self.register(RegOp::Sub, rd, rs1, rs2),
            Op::Sll { rd, rs1, rs2 } => self.register(RegOp::Sll, rd, rs1, rs2),
            Op::Slt { rd, rs1, rs2 } => self.register(RegOp::Slt, rd, rs1, rs2),
            Op::Sltu { rd, rs1, rs2 } => self.register(RegOp::Sltu, rd, rs1, rs2),
            Op::Xor { rd, rs1, rs2 } => self.register(RegOp::Xor, rd, rs1, rs2),
            Op::Srl { rd, rs1, rs2 } => self.register(RegOp::Srl, rd, rs1, rs2),
            Op::Sra { rd, rs1, rs2 } => self.register(RegOp::Sra, rd, rs1, rs2),
            Op::Or { rd, rs1, rs2 } => self.register(RegOp::Or, rd, rs1, rs2),
            Op::And { rd, rs1, rs2 } => self.register(RegOp::And, rd, rs1, rs2),
            Op::Mul { rd, rs1, rs2 } => self.register(RegOp::Mul, rd, rs1, rs2),
            Op::Mulh { rd, rs1, rs2 } => self.register(RegOp::Mulh, rd, rs1, rs2),
            Op::Mulhsu { rd, rs1, rs2 } => self.register(RegOp::Mulhsu, rd, rs1, rs2),
            Op::Mulhu { rd, rs1, rs2 } => self.register(RegOp::Mulhu, rd, rs1, rs2),
            Op::Div { rd, rs1, rs2 } => self.register(RegOp::Div, rd, rs1, rs2),
            Op::Divu { rd, rs1, rs2 } => self.register(RegOp::Divu, rd, rs1, rs2),
            Op::Rem { rd, rs1, rs2 } => self.register(RegOp::Rem, rd, rs1, rs2),
            Op::Remu { rd, rs1, rs2 } => self.register(RegOp::Remu, rd, rs1, rs2),
            Op::Addiw { rd, rs1, imm } => self.put(rd, bits::word(self.offset(rs1, imm))),
            Op::Slliw { rd, rs1, amount } => self.put(
                rd,
                alu::sllw(alu::low(self.read(rs1)), u32::from(amount.bits())),
            ),
            Op::Srliw { rd, rs1, amount } => self.put(
                rd,
                alu::srlw(alu::low(self.read(rs1)), u32::from(amount.bits())),
            ),
            Op::Sraiw { rd, rs1, amount } => self.put(
                rd,
                alu::sraw(alu::low(self.read(rs1)), u32::from(amount.bits())),
            ),
            Op::Addw { rd, rs1, rs2 } => self.word(RegOpW::Addw, rd, rs1, rs2),
            Op::Subw { rd, rs1, rs2 } => self.word(RegOpW::Subw, rd, rs1, rs2),
            Op::Sllw { rd, rs1, rs2 } => self.word(RegOpW::Sllw, rd, rs1, rs2),
            Op::Srlw { rd, rs1, rs2 } => self.word(RegOpW::Srlw, rd, rs1, rs2),
            Op::Sraw { rd, rs1, rs2 } => self.word(RegOpW::Sraw, rd, rs1, rs2),
            Op::Mulw { rd, rs1, rs2 } => self.word(RegOpW::Mulw, rd, rs1, rs2),
            Op::Divw { rd, rs1, rs2 } => self.word(RegOpW::Divw, rd, rs1, rs2),
            Op::Divuw { rd, rs1, rs2 } => self.word(RegOpW::Divuw, rd, rs1, rs2),
            Op::Remw { rd, rs1, rs2 } => self.word(RegOpW::Remw, rd, rs1, rs2),
            Op::Remuw { rd, rs1, rs2 } => self.word(RegOpW::Remuw, rd, rs1, rs2),
            Op::Nop => Next::Behind,
            Op::Ecall => stop(Cause::EnvironmentCall, pc.address()),
            Op::Ebreak => stop(Cause::Breakpoint, pc.address()),
            Op::Illegal => stop(Cause::IllegalInstruction, pc.address()),
        }
    }
}
