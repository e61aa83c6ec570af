//! The programs that are traced.

/// What a shell does for `echo hi | cat`.
pub(crate) const SHELL: &str = "
        la a0, console
        li a1, 2
        li a7, 15
        ecall
        li a0, 0
        li a7, 10
        ecall
        li a0, 0
        ecall
        addi s0, sp, -64
        mv a0, s0
        li a7, 4
        ecall
        li a7, 1
        ecall
        beq a0, zero, left
        lw a0, 4(s0)
        li a7, 21
        ecall
        li a7, 1
        ecall
        beq a0, zero, right
        lw a0, 0(s0)
        li a7, 21
        ecall
        li a0, 0
        li a7, 3
        ecall
        addi a0, sp, -8
        li a7, 3
        ecall
        li a0, 0
        li a7, 2
        ecall
left:   li a0, 1
        li a7, 21
        ecall
        lw a0, 4(s0)
        li a7, 10
        ecall
        lw a0, 0(s0)
        li a7, 21
        ecall
        lw a0, 4(s0)
        ecall
        la a0, echo
        la a1, arguments
        sd a0, 0(a1)
        la t0, hi
        sd t0, 8(a1)
        li a7, 7
        ecall
right:  li a0, 0
        li a7, 21
        ecall
        lw a0, 0(s0)
        li a7, 10
        ecall
        lw a0, 0(s0)
        li a7, 21
        ecall
        la a0, cat
        la a1, arguments
        sd a0, 0(a1)
        li a7, 7
        ecall
console: .ascii \"console\\0\"
echo:   .ascii \"echo\\0\"
cat:    .ascii \"cat\\0\"
hi:     .ascii \"hi\\0\"
        .pad 8
arguments: .zero 32
";

/// Writes `hi` and a line end, the last two bytes one by one, and ends with status 3.
pub(crate) const ECHO: &str = "
        li a0, 1
        la a1, hi
        li a2, 1
        li a7, 16
        ecall
        li a0, 1
        addi a1, a1, 1
        ecall
        li a0, 1
        addi a1, a1, 1
        ecall
        li a0, 3
        li a7, 2
        ecall
hi:     .ascii \"hi\\n\"
";

/// Copies what it reads.
pub(crate) const CAT: &str = "
again:  li a0, 0
        la a1, buffer
        li a2, 512
        li a7, 5
        ecall
        mv a2, a0
        beq a2, zero, end
        li a0, 1
        li a7, 16
        ecall
        j again
end:    li a0, 0
        li a7, 2
        ecall
buffer: .zero 512
";

/// Four processes, each of which waits for all its children.
pub(crate) const FORKS: &str = "
        li a7, 1
        ecall
        li a7, 1
        ecall
again:  li a0, 0
        li a7, 3
        ecall
        bge a0, zero, again
        li a0, 0
        li a7, 2
        ecall
";

/// A child stores where it has no page, and process 1 comes to a breakpoint.
pub(crate) const FAULTS: &str = "
        li a7, 1
        ecall
        beq a0, zero, child
        addi a0, sp, -8
        li a7, 3
        ecall
        ebreak
child:  lui t0, 256
        sw zero, 4(t0)
";

/// A child sleeps for long, and is killed.
pub(crate) const SLEEPER: &str = "
        li a7, 1
        ecall
        beq a0, zero, child
        mv s0, a0
        li a0, 1
        li a7, 13
        ecall
        mv a0, s0
        li a7, 6
        ecall
        li a0, 0
        li a7, 3
        ecall
        li a7, 11
        ecall
        ecall
        li a7, 99
        ecall
        li a7, 6
        ecall
child:  li a0, 100
        li a7, 13
        ecall
";

/// Takes a page, gives it back, and ends.
pub(crate) const GROWS: &str = "
        li a0, 4096
        li a7, 12
        ecall
        li a0, -4096
        li a7, 12
        ecall
        li a0, 0
        li a7, 2
        ecall
";

/// Makes files of all types, and names some that it can't open, and some by what it may not read.
pub(crate) const FILES: &str = "
        la a0, c
        li a1, 1
        li a2, 7
        li a7, 17
        ecall
        la a0, f
        li a1, 0x601
        li a7, 15
        ecall
        li a0, 0
        la a1, long
        li a2, 32
        li a7, 16
        ecall
        li a0, 0
        li a2, 33
        ecall
        li a0, 0
        addi a1, sp, -32
        li a7, 8
        ecall
        li a0, 0
        li a7, 5
        ecall
        la a0, f
        la a1, g
        li a7, 19
        ecall
        la a0, f
        li a7, 18
        ecall
        la a0, d
        li a7, 20
        ecall
        la a0, d
        li a7, 9
        ecall
        la a0, g
        li a1, 0x807
        li a7, 15
        ecall
        la a0, g
        li a1, 0x400
        ecall
        lui a0, 16
        li a7, 18
        ecall
        li a0, 0
        lui a1, 16
        li a2, -1
        li a7, 16
        ecall
        li a0, 0
        li a2, 3
        ecall
        lui a0, 16
        li a7, 4
        ecall
        la a0, g
        li a7, 7
        ecall
        la a0, g
        la t0, long
        sd t0, -16(sp)
        addi a1, sp, -16
        ecall
        li a0, 0
        li a7, 2
        ecall
c:      .ascii \"c\\0\"
f:      .ascii \"f\\0\"
g:      .ascii \"g\\0\"
d:      .ascii \"d\\0\"
long:   .ascii \"0123456789abcdef0123456789abcdef0\"
";

/// Eight children, each of which faults in its own way: at a jump, at a word that is no instruction, at loads and
/// stores that are not aligned, that have no page or that go to the page below the stack, at a fetch from the stack.
pub(crate) const KINDS: &str = "
        la s1, jump
        li s0, 8
again:  li a7, 1
        ecall
        bne a0, zero, on
        jalr zero, 0(s1)
on:     li a0, 0
        li a7, 3
        ecall
        addi s1, s1, 8
        addi s0, s0, -1
        bne s0, zero, again
        li a0, 0
        li a7, 2
        ecall
jump:   jalr zero, 2(zero)
        .word 0
        .word 0
        .word 0
        lh t0, 1(zero)
        .word 0
        sh zero, 1(zero)
        .word 0
        lui t0, 16
        lb t0, 0(t0)
        lui t0, 1
        lb t0, 0(t0)
        lui t0, 1
        sb zero, 0(t0)
        lui t0, 2
        jalr zero, 0(t0)
";

/// The first child kills the second, which the parent killed before it had a turn; all have the console open.
pub(crate) const TWICE: &str = "
        li t6, 5
        la a0, console
        li a1, 1
        li a7, 15
        ecall
        li a7, 1
        ecall
        beq a0, zero, killer
        li a7, 1
        ecall
        beq a0, zero, victim
        li a0, 3
        li a7, 6
        ecall
        li a0, 0
        li a7, 3
        ecall
        li a0, 0
        ecall
        li a0, 0
        li a7, 2
        ecall
victim: j victim
killer: li a0, 3
        li a7, 6
        ecall
        li a0, 0
        li a7, 2
        ecall
console: .ascii \"console\\0\"
";
