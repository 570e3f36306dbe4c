// kinds.rt - the kinds of instruction as numbers: one for each function of the execute layer.
// Means: specs/Kinds.antt (MOVE_A here is MoveA there: underscores before capitals, but DBCC is DBcc).
// Uses: nothing.  Source: [003 3.2] to [003 3.9], the families and their order; the numbers are [ours].

// no instruction
pub const ILLEGAL: u32 = 0;

pub const LINE_A: u32 = 1;

pub const LINE_F: u32 = 2;

// data movement
pub const MOVE: u32 = 3;

pub const MOVE_A: u32 = 4;

pub const MOVE_Q: u32 = 5;

pub const MOVE_M_TO_MEMORY: u32 = 6;

pub const MOVE_M_TO_REGISTERS: u32 = 7;

pub const MOVE_P_TO_REGISTER: u32 = 8;

pub const MOVE_P_TO_MEMORY: u32 = 9;

pub const LEA: u32 = 10;

pub const PEA: u32 = 11;

pub const EXG_DATA: u32 = 12;

pub const EXG_ADDRESS: u32 = 13;

pub const EXG_BOTH: u32 = 14;

pub const SWAP: u32 = 15;

pub const LINK: u32 = 16;

pub const UNLK: u32 = 17;

// integer arithmetic
pub const ADD_TO_REGISTER: u32 = 18;

pub const ADD_TO_MEMORY: u32 = 19;

pub const ADD_A: u32 = 20;

pub const ADD_I: u32 = 21;

pub const ADD_Q: u32 = 22;

pub const ADD_Q_A: u32 = 23;

pub const ADD_X: u32 = 24;

pub const SUB_TO_REGISTER: u32 = 25;

pub const SUB_TO_MEMORY: u32 = 26;

pub const SUB_A: u32 = 27;

pub const SUB_I: u32 = 28;

pub const SUB_Q: u32 = 29;

pub const SUB_Q_A: u32 = 30;

pub const SUB_X: u32 = 31;

pub const NEG: u32 = 32;

pub const NEG_X: u32 = 33;

pub const CLR: u32 = 34;

pub const CMP: u32 = 35;

pub const CMP_A: u32 = 36;

pub const CMP_I: u32 = 37;

pub const CMP_M: u32 = 38;

pub const MUL_S: u32 = 39;

pub const MUL_U: u32 = 40;

pub const DIV_S: u32 = 41;

pub const DIV_U: u32 = 42;

pub const EXT: u32 = 43;

pub const TAS: u32 = 44;

pub const TST: u32 = 45;

// logical
pub const AND_TO_REGISTER: u32 = 46;

pub const AND_TO_MEMORY: u32 = 47;

pub const AND_I: u32 = 48;

pub const OR_TO_REGISTER: u32 = 49;

pub const OR_TO_MEMORY: u32 = 50;

pub const OR_I: u32 = 51;

pub const EOR: u32 = 52;

pub const EOR_I: u32 = 53;

pub const NOT: u32 = 54;

// shift and rotate
pub const SHIFT_REGISTER: u32 = 55;

pub const SHIFT_MEMORY: u32 = 56;

// bit manipulation
pub const BIT_DYNAMIC: u32 = 57;

pub const BIT_STATIC: u32 = 58;

// binary-coded decimal
pub const ABCD: u32 = 59;

pub const SBCD: u32 = 60;

pub const NBCD: u32 = 61;

// program control
pub const BCC: u32 = 62;

pub const BRA: u32 = 63;

pub const BSR: u32 = 64;

pub const DBCC: u32 = 65;

pub const SCC: u32 = 66;

pub const JMP: u32 = 67;

pub const JSR: u32 = 68;

pub const NOP: u32 = 69;

pub const RTR: u32 = 70;

pub const RTS: u32 = 71;

// system control
pub const AND_I_TO_CCR: u32 = 72;

pub const AND_I_TO_SR: u32 = 73;

pub const EOR_I_TO_CCR: u32 = 74;

pub const EOR_I_TO_SR: u32 = 75;

pub const OR_I_TO_CCR: u32 = 76;

pub const OR_I_TO_SR: u32 = 77;

pub const MOVE_FROM_SR: u32 = 78;

pub const MOVE_TO_CCR: u32 = 79;

pub const MOVE_TO_SR: u32 = 80;

pub const MOVE_TO_USP: u32 = 81;

pub const MOVE_FROM_USP: u32 = 82;

pub const RESET: u32 = 83;

pub const RTE: u32 = 84;

pub const STOP: u32 = 85;

pub const TRAP: u32 = 86;

pub const TRAP_V: u32 = 87;

pub const CHK: u32 = 88;

// how many kinds there are: each is below this
pub const KINDS: u32 = 89;
