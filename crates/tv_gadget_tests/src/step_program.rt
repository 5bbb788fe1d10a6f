//! A program of all 29 instructions, of which each is done once and in order, and one of jumps.

/// The lines of the first. At 16 bits a register's sum carries, and its signed products are of
/// negative words.
pub const LINES: &str = "mov r1, 40000
mov r2, 5
and r3, r1, r2
or r3, r1, r2
xor r3, r1, r2
not r3, r1
add r3, r1, r1
sub r3, r2, r1
mull r3, r1, r3
umulh r3, r1, r3
smulh r3, r1, r3
udiv r3, r1, r2
umod r3, r1, 7
udiv r3, r1, 0
shl r3, r1, 3
shr r3, r1, 3
cmpe r1, 40000
cmpa r1, r2
cmpae r2, r2
cmpg r2, r1
cmov r4, 9
cmpge r2, 6
cmov r5, 9
store.w 4096, r1
load.w r6, 4097
store.b 4099, r2
load.b r7, 4098
read r8, 0
read r8, 0
read r8, 1
read r8, 1
read r8, 1
cjmp _a
_a: cnjmp _b
_b: jmp _c
_c: answer r3";

/// The lines of the second: all four are done, in the order 0, 2, 3, 1.
pub const JUMPS: &str = "jmp _b
_a: answer 5
_b: cmpe r0, 0
cjmp _a";

/// The place of the read of the auxiliary tape after its end.
pub const LATE_READ: usize = 31;

/// The words of the primary tape.
pub const TAPE: [u32; 1] = [11];

/// The words of the auxiliary tape.
pub const AUX: [u32; 1] = [22];
