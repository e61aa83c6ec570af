//! The words of statements.
ghost use Rattle.std.specs.Prelude.{◌≡◌, ◌≤◌, map, option_map};
ghost use Rattle.unixmodel.specs.Statements as the;
ghost use Rattle.asmtext.specs.Forms.{form_of, named_form, size_of};

use crate::operations::{BareOp, BaseOp, NumberOp, RegisterOp, UpperOp};
use unixmodel::instr::{BranchOp, ImmOp, LoadOp, RegOp, RegOpW, ShiftOp, StoreOp};

/// How many bytes a number takes.
#[derive(Clone, Copy)]
pub enum Width {
    Byte,
    Word,
    DoubleWord,
}

/// What a statement's word asks for.
#[derive(Clone, Copy)]
pub enum Word {
    Register(RegisterOp),
    Number(NumberOp),
    Base(BaseOp),
    Upper(UpperOp),
    Branch(BranchOp),
    /// A whole instruction.
    Bare(BareOp),
    /// jal.
    JumpAndLink,
    /// j.
    Jump,
    /// li.
    LoadNumber,
    /// la.
    LoadAddress,
    /// mv.
    Move,
    Data(Width),
    Ascii,
    Zeros,
    Padding,
}

// The words, each with what it asks for.
const WORDS: [(&[u8], Word); 76] = [
    (b"add", Word::Register(RegisterOp::Reg(RegOp::Add))),
    (b"sub", Word::Register(RegisterOp::Reg(RegOp::Sub))),
    (b"sll", Word::Register(RegisterOp::Reg(RegOp::Sll))),
    (b"slt", Word::Register(RegisterOp::Reg(RegOp::Slt))),
    (b"sltu", Word::Register(RegisterOp::Reg(RegOp::Sltu))),
    (b"xor", Word::Register(RegisterOp::Reg(RegOp::Xor))),
    (b"srl", Word::Register(RegisterOp::Reg(RegOp::Srl))),
    (b"sra", Word::Register(RegisterOp::Reg(RegOp::Sra))),
    (b"or", Word::Register(RegisterOp::Reg(RegOp::Or))),
    (b"and", Word::Register(RegisterOp::Reg(RegOp::And))),
    (b"mul", Word::Register(RegisterOp::Reg(RegOp::Mul))),
    (b"mulh", Word::Register(RegisterOp::Reg(RegOp::Mulh))),
    (b"mulhsu", Word::Register(RegisterOp::Reg(RegOp::Mulhsu))),
    (b"mulhu", Word::Register(RegisterOp::Reg(RegOp::Mulhu))),
    (b"div", Word::Register(RegisterOp::Reg(RegOp::Div))),
    (b"divu", Word::Register(RegisterOp::Reg(RegOp::Divu))),
    (b"rem", Word::Register(RegisterOp::Reg(RegOp::Rem))),
    (b"remu", Word::Register(RegisterOp::Reg(RegOp::Remu))),
    (b"addw", Word::Register(RegisterOp::RegW(RegOpW::Addw))),
    (b"subw", Word::Register(RegisterOp::RegW(RegOpW::Subw))),
    (b"sllw", Word::Register(RegisterOp::RegW(RegOpW::Sllw))),
    (b"srlw", Word::Register(RegisterOp::RegW(RegOpW::Srlw))),
    (b"sraw", Word::Register(RegisterOp::RegW(RegOpW::Sraw))),
    (b"mulw", Word::Register(RegisterOp::RegW(RegOpW::Mulw))),
    (b"divw", Word::Register(RegisterOp::RegW(RegOpW::Divw))),
    (b"divuw", Word::Register(RegisterOp::RegW(RegOpW::Divuw))),
    (b"remw", Word::Register(RegisterOp::RegW(RegOpW::Remw))),
    (b"remuw", Word::Register(RegisterOp::RegW(RegOpW::Remuw))),
    (b"addi", Word::Number(NumberOp::Imm(ImmOp::Addi))),
    (b"slti", Word::Number(NumberOp::Imm(ImmOp::Slti))),
    (b"sltiu", Word::Number(NumberOp::Imm(ImmOp::Sltiu))),
    (b"xori", Word::Number(NumberOp::Imm(ImmOp::Xori))),
    (b"ori", Word::Number(NumberOp::Imm(ImmOp::Ori))),
    (b"andi", Word::Number(NumberOp::Imm(ImmOp::Andi))),
    (b"slli", Word::Number(NumberOp::Shift(ShiftOp::Sll))),
    (b"srli", Word::Number(NumberOp::Shift(ShiftOp::Srl))),
    (b"srai", Word::Number(NumberOp::Shift(ShiftOp::Sra))),
    (b"slliw", Word::Number(NumberOp::ShiftW(ShiftOp::Sll))),
    (b"srliw", Word::Number(NumberOp::ShiftW(ShiftOp::Srl))),
    (b"sraiw", Word::Number(NumberOp::ShiftW(ShiftOp::Sra))),
    (b"lb", Word::Base(BaseOp::Load(LoadOp::Lb))),
    (b"lh", Word::Base(BaseOp::Load(LoadOp::Lh))),
    (b"lw", Word::Base(BaseOp::Load(LoadOp::Lw))),
    (b"ld", Word::Base(BaseOp::Load(LoadOp::Ld))),
    (b"lbu", Word::Base(BaseOp::Load(LoadOp::Lbu))),
    (b"lhu", Word::Base(BaseOp::Load(LoadOp::Lhu))),
    (b"lwu", Word::Base(BaseOp::Load(LoadOp::Lwu))),
    (b"sb", Word::Base(BaseOp::Store(StoreOp::Sb))),
    (b"sh", Word::Base(BaseOp::Store(StoreOp::Sh))),
    (b"sw", Word::Base(BaseOp::Store(StoreOp::Sw))),
    (b"sd", Word::Base(BaseOp::Store(StoreOp::Sd))),
    (b"beq", Word::Branch(BranchOp::Beq)),
    (b"bne", Word::Branch(BranchOp::Bne)),
    (b"blt", Word::Branch(BranchOp::Blt)),
    (b"bge", Word::Branch(BranchOp::Bge)),
    (b"bltu", Word::Branch(BranchOp::Bltu)),
    (b"bgeu", Word::Branch(BranchOp::Bgeu)),
    (b"addiw", Word::Number(NumberOp::Addiw)),
    (b"jalr", Word::Base(BaseOp::Jalr)),
    (b"jal", Word::JumpAndLink),
    (b"lui", Word::Upper(UpperOp::Lui)),
    (b"auipc", Word::Upper(UpperOp::Auipc)),
    (b"fence", Word::Bare(BareOp::Fence)),
    (b"ecall", Word::Bare(BareOp::Ecall)),
    (b"ebreak", Word::Bare(BareOp::Ebreak)),
    (b"li", Word::LoadNumber),
    (b"la", Word::LoadAddress),
    (b"mv", Word::Move),
    (b"j", Word::Jump),
    (b"ret", Word::Bare(BareOp::Return)),
    (b".byte", Word::Data(Width::Byte)),
    (b".word", Word::Data(Width::Word)),
    (b".dword", Word::Data(Width::DoubleWord)),
    (b".ascii", Word::Ascii),
    (b".zero", Word::Zeros),
    (b".pad", Word::Padding),
];

// What the first of these words that is the name asks for.
fn among(words: &[(&[u8], Word)], name: &[u8]) -> Option<Word>
    ensures { option_map form_of result ≡ the.form_among (map named_form words.now) name.now }
{
    for (word, asks) in words {
        if *word == name {
            return Some(*asks);
        }
    }
    None
}

/// What a statement's word asks for, if it has a form.
pub fn word_called(name: &[u8]) -> Option<Word>
    ensures { option_map form_of result ≡ the.form_called name.now }
{
    among(&WORDS, name)
}

impl Width {
    /// In bytes.
    pub fn size(self) -> usize
        ensures is { result ≡ size_of self }
        ensures small { result ≤ 8 }
    {
        match self {
            Width::Byte => 1,
            Width::Word => 4,
            Width::DoubleWord => 8,
        }
    }
}
