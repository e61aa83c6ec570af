//! Words that are instructions, and words that are none.
use isa::{decode, encode};
use unixmodel::instr::{AmountW, Imm12, Instr, Reg, RegOpW, ShiftOp};

/// sraiw ra, ra, 1
fn shift() -> Instr {
    Instr::ShiftW {
        op: ShiftOp::Sra,
        rd: Reg::new(1),
        rs1: Reg::new(1),
        amount: AmountW::new(1),
    }
}

/// fence iorw, iorw
fn fence() -> Instr {
    Instr::Fence {
        rd: Reg::new(0),
        rs1: Reg::new(0),
        imm: Imm12::new(0x0ff),
    }
}

/// remw a0, a0, a1
fn remainder() -> Instr {
    Instr::RegW {
        op: RegOpW::Remw,
        rd: Reg::new(10),
        rs1: Reg::new(10),
        rs2: Reg::new(11),
    }
}

#[test]
fn reads_and_spells_words(rt: HostRuntime) {
    for (word, instr) in [
        (0x4010_d09b, shift()),
        (0x0ff0_000f, fence()),
        (0x02b5_653b, remainder()),
        (0x0000_0073, Instr::Ecall),
    ] {
        assert!(rt;
            decode(word) == Some(instr) && encode(instr) == word,
            "{word:#x}"
        );
    }
}

#[test]
fn refuses_words_that_are_no_instructions(rt: HostRuntime) {
    // sraiw with bit 25 set, fence.i, the word between mulw and divw, and the words of only zeros and only ones
    for word in [
        0x4210_d09b,
        0x0000_100f,
        0x02b5_153b,
        0x0000_0000,
        0xffff_ffff,
    ] {
        assert!(rt; decode(word).is_none(), "{word:#x}");
    }
}
