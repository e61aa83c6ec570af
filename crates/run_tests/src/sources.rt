//! The programs that are `/init` here, as assembly texts.

/// Does what each byte says that is typed, by its low three bits, and prints the byte and what came of it; `x` ends it.
/// Nothing of one byte is left for the next but files. It makes the console where there is none.
pub(crate) const SERVANT: &str = "
        la a0, console
        li a1, 1
        li a2, 0
        li a7, 17
        ecall
        la a0, console
        li a1, 2
        li a7, 15
        ecall
        li a0, 0
        li a7, 10
        ecall
        lui s3, 2           # a buffer, where the stack's page begins
again:  li a0, 0
        la a1, key
        li a2, 1
        li a7, 5
        ecall
        bge zero, a0, again
        la t0, key
        lbu s0, 0(t0)
        li t1, 32           # a line's end
        blt s0, t1, again
        li t1, 120
        beq s0, t1, quit
        andi s1, s0, 7
        li t1, 1
        beq s1, t1, join
        li t1, 2
        beq s1, t1, part
        li t1, 3
        beq s1, t1, child
        li t1, 4
        beq s1, t1, clear
        li t1, 5
        beq s1, t1, talk
        li t1, 6
        beq s1, t1, drop
        li t1, 7
        beq s1, t1, empty
        la a0, f            # f grows by 100 bytes, up to 3100
        li a1, 0x202
        li a7, 15
        ecall
        mv s2, a0
        mv a1, s3
        li a2, 3000
        li a7, 5
        ecall
        mv a0, s2
        mv a1, s3
        li a2, 100
        li a7, 16
        ecall
        mv s4, a0
        mv a0, s2
        li a7, 21
        ecall
        mv a0, s4
        j reply
join:   la a0, f
        la a1, g
        li a7, 19
        ecall
        j reply
part:   la a0, f
        li a7, 18
        ecall
        j reply
clear:  la a0, d
        li a7, 18
        ecall
        j reply
drop:   la a0, g
        li a7, 18
        ecall
        j reply
empty:  la a0, f
        li a1, 0x400
        li a7, 15
        ecall
        blt a0, zero, reply
        li a7, 21
        ecall
        j reply
child:  li a7, 1            # a child makes d, and its status says whether it could
        ecall
        beq a0, zero, make
        la a0, status
        li a7, 3
        ecall
        la t0, status
        lw a0, 0(t0)
        j reply
make:   la a0, d
        li a7, 20
        ecall
        addi a0, a0, 5
        li a7, 2
        ecall
talk:   la a0, ends         # a child writes 600 bytes to a pipe, which are read by 90
        li a7, 4
        ecall
        li a7, 1
        ecall
        beq a0, zero, speak
        la t0, ends
        lw a0, 4(t0)
        li a7, 21
        ecall
        li s4, 0
listen: la t0, ends
        lw a0, 0(t0)
        mv a1, s3
        li a2, 90
        li a7, 5
        ecall
        add s4, s4, a0
        blt zero, a0, listen
        la t0, ends
        lw a0, 0(t0)
        li a7, 21
        ecall
        li a0, 0
        li a7, 3
        ecall
        mv a0, s4
reply:  andi a0, a0, 15
        addi a0, a0, 97
        la a1, key
        sb a0, 1(a1)
        li a0, 1
        li a2, 2
        li a7, 16
        ecall
        j again
speak:  la t0, ends
        lw a0, 4(t0)
        mv a1, s3
        li a2, 600
        li a7, 16
        ecall
        li a0, 6
        li a7, 2
        ecall
quit:   li a0, 9
        li a7, 2
        ecall
console: .ascii \"console\\0\"
f:      .ascii \"f\\0\"
g:      .ascii \"g\\0\"
d:      .ascii \"d\\0\"
key:    .byte 0
        .byte 0
status: .word 0
ends:   .word 0
        .word 0
";

/// Makes a file of one byte, takes its name away and keeps it open.
pub(crate) const HOLDER: &str = "
        la a0, f
        li a1, 0x201
        li a7, 15
        ecall
        la a1, f
        li a2, 1
        li a7, 16
        ecall
        la a0, f
        li a7, 18
        ecall
stay:   j stay
f:      .ascii \"f\\0\"
";

/// Reads a file of 67382271 bytes to its end (s2), and writes one byte twice (s3 and s4).
pub(crate) const FILLER: &str = "
        li a0, 67382271
        li a7, 12
        ecall
        mv s1, a0
        la a0, big
        li a1, 2
        li a7, 15
        ecall
        mv a1, s1
        li a2, 67382271
        li a7, 5
        ecall
        mv s2, a0
        li a0, 0
        li a2, 1
        li a7, 16
        ecall
        mv s3, a0
        li a0, 0
        ecall
        mv s4, a0
stay:   j stay
big:    .ascii \"big\\0\"
";

/// Makes, writes, links, unlinks and reads files, more of them than a cache holds, and prints `a` to `f` meanwhile.
pub(crate) const WORKER: &str = "
        la a0, console
        li a1, 1
        li a2, 0
        li a7, 17
        ecall
        la a0, console
        li a1, 2
        li a7, 15
        ecall
        jal ra, print
        li a0, 16384
        li a7, 12
        ecall
        mv s1, a0
        la a0, f            # descriptor 1
        li a1, 0x202
        li a7, 15
        ecall
        mv a1, s1
        li a2, 14336
        li a7, 16
        ecall
        jal ra, print
        la a0, f
        la a1, g
        li a7, 19
        ecall
        la a0, f
        li a7, 18
        ecall
        jal ra, print
        la a0, big          # descriptor 2
        li a1, 0
        li a7, 15
        ecall
        mv a1, s1
        li a2, 16384
        li a7, 5
        ecall
        li a0, 2
        ecall
        jal ra, print
        la a0, g            # descriptor 3
        li a1, 0
        li a7, 15
        ecall
        mv a1, s1
        li a2, 14336
        li a7, 5
        ecall
        la a0, g
        li a7, 18
        ecall
        li a0, 1
        li a7, 21
        ecall
        li a0, 3
        ecall
        jal ra, print
        la a0, d
        li a7, 20
        ecall
        jal ra, print
        li a0, 0
        li a7, 2
        ecall
print:  li a0, 0
        la a1, letter
        li a2, 1
        li a7, 16
        ecall
        lbu t0, 0(a1)
        addi t0, t0, 1
        sb t0, 0(a1)
        ret
console: .ascii \"console\\0\"
f:      .ascii \"f\\0\"
g:      .ascii \"g\\0\"
d:      .ascii \"d\\0\"
big:    .ascii \"big\\0\"
letter: .ascii \"a\"
";

/// Executes itself with 32 arguments, with 31, with one of 4080 bytes, and with one of 4079 bytes, and then turns
/// round. Where one passes that should be refused, or the other way round, it ends.
pub(crate) const PASSER: &str = "
        li t0, 31
        beq a0, t0, long
        li t0, 8192
        beq a1, t0, stay
        li a0, 4096
        li a7, 12
        ecall
        mv s1, a0
        la t0, short
        li t1, 32
        mv t2, s1
point:  sd t0, 0(t2)
        addi t2, t2, 8
        addi t1, t1, -1
        bne t1, zero, point
        la a0, init
        mv a1, s1
        li a7, 7
        ecall
        bge a0, zero, wrong
        sd zero, 248(s1)
        la a0, init
        ecall
wrong:  li a0, 9
        li a7, 2
        ecall
long:   li a0, 8192
        li a7, 12
        ecall
        mv s1, a0
        addi t2, s1, 16     # the string stands behind its pointer and a zero
        sd t2, 0(s1)
        li t0, 97
        li t1, 4080
fill:   sb t0, 0(t2)
        addi t2, t2, 1
        addi t1, t1, -1
        bne t1, zero, fill
        la a0, init
        mv a1, s1
        li a7, 7
        ecall
        bge a0, zero, wrong
        sb zero, -1(t2)
        la a0, init
        ecall
        j wrong
stay:   j stay
short:  .ascii \"a\\0\"
init:   .ascii \"/init\\0\"
";

/// Reads a file of 32768 bytes at most, again and again, and counts in s4 how often.
pub(crate) const READER: &str = "
        li a0, 32768
        li a7, 12
        ecall
        mv s1, a0
again:  la a0, big
        li a1, 0
        li a7, 15
        ecall
        mv s2, a0
        mv a1, s1
        li a2, 32768
        li a7, 5
        ecall
        mv a0, s2
        li a7, 21
        ecall
        addi s4, s4, 1
        j again
big:    .ascii \"big\\0\"
";
