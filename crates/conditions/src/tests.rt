//! Expressions as gdb writes them, and rows of each operation.

use crate::evaluation::evaluate;
use crate::{Binary, Sight, Unary, Width, apply_binary, apply_unary, holds};

// A process in which register n holds 1000 + n, and memory has at each address below 100 that address.
struct Example;

impl Sight for Example {
    fn register(&self, number: u16) -> Option<u64> {
        if number <= 32 {
            Some(1000 + u64::from(number))
        } else {
            None
        }
    }

    fn load(&self, address: u64, width: Width) -> Option<u64> {
        if address >= 100 {
            return None;
        }
        Some(match width {
            Width::Byte => address,
            Width::Half => address + 0x100,
            Width::Word => address + 0x1_0000,
            Width::Double => address + 0x1_0000_0000,
        })
    }
}

#[test]
fn conditions_of_gdb_are_evaluated(rt: HostRuntime) {
    // $a4 == 1014 and $a4 == 5000
    assert!(rt; holds(&[0x26, 0, 14, 0x23, 0x03, 0xf6, 0x13, 0x27], &Example));
    assert!(rt; !holds(&[0x26, 0, 14, 0x23, 0x13, 0x88, 0x13, 0x27], &Example));
    // *(char *) 65 == 'A', with the sign extended
    assert!(rt; holds(&[0x22, 65, 0x17, 0x16, 8, 0x22, 65, 0x13, 0x27], &Example));
    // $ra > 1000 && $sp < 1000, where the second is looked at only if the first holds
    let both = [
        0x23, 0x03, 0xe8, 0x26, 0, 1, 0x14, 0x20, 0, 13, 0x22, 0, 0x27, 0x26, 0, 2, 0x23, 0x03,
        0xe8, 0x14, 0x27,
    ];
    assert!(rt; evaluate(&both, &Example) == Some(0));
}

#[test]
fn operations_on_two_numbers_give_their_rows(rt: HostRuntime) {
    let minus_seven = 7_u64.wrapping_neg();
    let rows = [
        (Binary::Add, u64::MAX, 2, Some(1)),
        (Binary::Subtract, 1, 2, Some(u64::MAX)),
        (Binary::Multiply, 1 << 63, 3, Some(1 << 63)),
        (
            Binary::DivideSigned,
            minus_seven,
            2,
            Some(3_u64.wrapping_neg()),
        ),
        (Binary::DivideSigned, 1 << 63, u64::MAX, Some(1 << 63)),
        (Binary::DivideSigned, 7, 0, None),
        (Binary::DivideUnsigned, u64::MAX, 2, Some(u64::MAX / 2)),
        (Binary::DivideUnsigned, 7, 0, None),
        (Binary::RemainderSigned, minus_seven, 2, Some(u64::MAX)),
        (Binary::RemainderSigned, 7, 0, None),
        (Binary::RemainderUnsigned, 7, 4, Some(3)),
        (Binary::RemainderUnsigned, 7, 0, None),
        (Binary::ShiftLeft, 3, 63, Some(1 << 63)),
        (Binary::ShiftLeft, 3, 64, Some(0)),
        (Binary::ShiftRightSigned, 1 << 63, 62, Some(u64::MAX - 1)),
        (Binary::ShiftRightSigned, 1 << 63, 200, Some(u64::MAX)),
        (Binary::ShiftRightUnsigned, 1 << 63, 62, Some(2)),
        (Binary::ShiftRightUnsigned, 1 << 63, 64, Some(0)),
        (Binary::And, 12, 10, Some(8)),
        (Binary::Or, 12, 10, Some(14)),
        (Binary::Xor, 12, 10, Some(6)),
        (Binary::Equal, 5, 5, Some(1)),
        (Binary::LessSigned, u64::MAX, 0, Some(1)),
        (Binary::LessUnsigned, u64::MAX, 0, Some(0)),
    ];
    for (op, a, b, value) in rows {
        assert!(rt; apply_binary(op, a, b) == value);
    }
}

#[test]
fn operations_on_one_number_give_their_rows(rt: HostRuntime) {
    assert!(rt; apply_unary(Unary::IsZero, 0) == 1);
    assert!(rt; apply_unary(Unary::IsZero, 9) == 0);
    assert!(rt; apply_unary(Unary::Complement, 0) == u64::MAX);
    assert!(rt; apply_unary(Unary::SignExtend(8), 0x1ff) == u64::MAX);
    assert!(rt; apply_unary(Unary::SignExtend(8), 0x17f) == 0x7f);
    assert!(rt; apply_unary(Unary::SignExtend(64), 5) == 5);
    assert!(rt; apply_unary(Unary::ZeroExtend(8), 0x1ff) == 0xff);
    assert!(rt; apply_unary(Unary::ZeroExtend(64), u64::MAX) == u64::MAX);
}

#[test]
fn the_stack_is_moved_about(rt: HostRuntime) {
    let numbers = [0x22, 1, 0x22, 2, 0x22, 3];
    let tops: [(&[u8], u64); 6] = [
        (&[0x27], 3),
        (&[0x29, 0x27], 2),
        (&[0x2b, 0x27], 2),
        (&[0x33, 0x27], 1),
        (&[0x32, 2, 0x27], 1),
        (&[0x28, 0x02, 0x27], 6),
    ];
    for (code, top) in tops {
        let mut all = Vec::new(rt.alloc());
        all.extend_from_slice(&numbers).expect(&rt, "memory");
        all.extend_from_slice(code).expect(&rt, "memory");
        assert!(rt; evaluate(all.as_slice(), &Example) == Some(top));
    }
}

#[test]
fn numbers_have_their_highest_byte_first(rt: HostRuntime) {
    assert!(rt; evaluate(&[0x24, 1, 2, 3, 4, 0x27], &Example) == Some(0x0102_0304));
    assert!(rt;
        evaluate(&[0x25, 1, 2, 3, 4, 5, 6, 7, 8, 0x27], &Example) == Some(0x0102_0304_0506_0708)
    );
    assert!(rt; evaluate(&[0x22, 7, 0x18, 0x27], &Example) == Some(0x107));
    assert!(rt; evaluate(&[0x22, 7, 0x19, 0x27], &Example) == Some(0x1_0007));
    assert!(rt; evaluate(&[0x22, 7, 0x1a, 0x27], &Example) == Some(0x1_0000_0007));
    assert!(rt; evaluate(&[0x23, 1, 2, 0x2a, 8, 0x27], &Example) == Some(2));
}

#[test]
fn what_has_no_value_holds(rt: HostRuntime) {
    let ill: [&[u8]; 9] = [
        &[],
        &[0x27],
        &[0x02, 0x27],
        &[0x22],
        &[0x1b, 0x27],
        &[0x22, 100, 0x17, 0x27],
        &[0x26, 1, 0, 0x27],
        // It goes round for ever; it jumps out of its code; it fills the stack.
        &[0x21, 0, 0],
        &[0x22, 1, 0x21, 0, 0],
    ];
    for code in ill {
        assert!(rt; evaluate(code, &Example) == None);
        assert!(rt; holds(code, &Example));
    }
    assert!(rt; evaluate(&[0x21, 9, 9], &Example) == None);
}
