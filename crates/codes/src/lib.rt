// lib.rt - the numbers that stand for something, each by one name: sizes, slots, registers, modes, SR's bits, vectors, events, accesses, writes.
// Means: specs/Codes.antt (DATA_READ here is DataRead there: underscores before capitals). No code: constants alone.
// Uses: nothing.  Source: as in specs/Codes.antt.
#![tactic(auto)]

// Sizes, as an operation word's size field has them.
pub const BYTE: u32 = 0;

pub const WORD: u32 = 1;

pub const LONG: u32 = 2;

// The slots of a state: 0 to 7 D0 to D7, 8 to 14 A0 to A6, and these; how many there are.
pub const USP: usize = 15;

pub const SSP: usize = 16;

pub const PC: usize = 17;

pub const SR: usize = 18;

pub const MODE: usize = 19;

pub const SLOTS: usize = 20;

pub const RUNNING: u32 = 0;

pub const STOPPED: u32 = 1;

pub const HALTED: u32 = 2;

pub const MODES: u32 = 3;

// The registers of the bank that an instruction sees: 0 to 7 D0 to D7, and these; UserStack is USP in supervisor state.
pub const A0: u32 = 8;

pub const A7: u32 = 15;

pub const USER_STACK: u32 = 16;

pub const NO_REGISTER: u32 = 17;

// The status register: flags below $20, the mask's lowest bit, S, T; SR after a reset.
pub const FLAG_VALUES: u32 = 0x0020;

pub const MASK: u32 = 0x0100;

pub const SUPERVISOR: u32 = 0x2000;

pub const TRACE: u32 = 0x8000;

pub const RESET_STATUS: u32 = 0x2700;

// How many addresses there are, the least and the most bytes of a memory.
pub const ADDRESSES: u32 = 0x100_0000;

pub const LEAST_MEMORY: usize = 1024;

pub const MOST_MEMORY: usize = 16777216;

// The first address of the ROM, which no memory beside it reaches, and the most bytes of a ROM.
pub const ROM_START: u32 = 0xF0_0000;

pub const MOST_ROM: usize = 1048576;

// The highest level of a request, and the most steps of a run.
pub const TOP_LEVEL: u32 = 7;

pub const MOST_STEPS: u32 = 1000000;

// Exception vectors.
pub const BUS_ERROR: u32 = 2;

pub const ADDRESS_ERROR: u32 = 3;

pub const ILLEGAL_INSTRUCTION: u32 = 4;

pub const ZERO_DIVIDE: u32 = 5;

pub const CHK_INSTRUCTION: u32 = 6;

pub const TRAPV_INSTRUCTION: u32 = 7;

pub const PRIVILEGE_VIOLATION: u32 = 8;

pub const TRACE_VECTOR: u32 = 9;

pub const LINE1010: u32 = 10;

pub const LINE1111: u32 = 11;

pub const FIRST_TRAP: u32 = 32;

// A plan's vector where it is none: no trap, or a stop.
pub const NO_VECTOR: u32 = 0;

pub const STOP_CODE: u32 = 0x100;

// A step's event: none, 1 more than the vector that was taken first, a halt.
pub const NO_EVENT: u32 = 0;

pub const HALT_EVENT: u32 = 0x101;

// Kinds of access, as the information word in user state; the supervisor's function codes are 4 more.
pub const DATA_READ: u32 = 0x11;

pub const PROGRAM_READ: u32 = 0x12;

pub const DATA_WRITE: u32 = 0x01;

// Where an operand is.
pub const IN_REGISTER: u32 = 0;

pub const IN_MEMORY: u32 = 1;

pub const IN_INSTRUCTION: u32 = 2;

// What a plan writes: a byte, a word or a long by its size; nothing; MOVEM's block upward, or downward; MOVEP's bytes at every other.
pub const NO_WRITE: u32 = 3;

pub const BLOCK_UP: u32 = 4;

pub const BLOCK_DOWN: u32 = 6;

pub const EVERY_OTHER: u32 = 8;

pub const UPWARD: u32 = 2;

pub const DOWNWARD: u32 = 3;

// Addressing modes that definitions name.
pub const IN_DATA: u32 = 0;

pub const POSTINCREMENT: u32 = 3;

pub const PREDECREMENT: u32 = 4;

pub const DISPLACED: u32 = 5;

pub const STACK_POINTER: u32 = 7;

// Operations with a destination and a source.
pub const ADD: u32 = 0;

pub const SUBTRACT: u32 = 1;

pub const COMPARE: u32 = 2;

pub const AND: u32 = 3;

pub const OR: u32 = 4;

pub const EXCLUSIVE_OR: u32 = 5;

pub const ADD_EXTENDED: u32 = 0;

pub const SUBTRACT_EXTENDED: u32 = 1;

pub const ADD_DECIMAL: u32 = 2;

pub const SUBTRACT_DECIMAL: u32 = 3;

pub const NEGATE: u32 = 0;

pub const NEGATE_EXTENDED: u32 = 1;

pub const COMPLEMENT: u32 = 2;

pub const CLEAR: u32 = 3;

pub const NEGATE_DECIMAL: u32 = 4;

pub const TEST_AND_SET: u32 = 5;

pub const EXTEND: u32 = 6;

pub const SIGNED: u32 = 0;

pub const UNSIGNED: u32 = 1;
