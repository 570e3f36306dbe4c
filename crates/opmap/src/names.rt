// names.rt - the name of an operation word: its stem, and an ending that tells a size or a condition.
// Means: nothing; see main.rt.
// Uses: decode, kind_table.  Source: [003 B], [003 A-2] the conditions' letters.
use decode::kinds;
use std::fmt;
use std::fmt::{Display, Formatter};

// The stems of the kinds, in their order, with a dash for those of shifts and of single bits, which have several.
static STEMS: [&str; kinds::KINDS as usize] = [
    "ILLEGAL",
    "LINEA",
    "LINEF",
    "MOVE",
    "MOVEA",
    "MOVEQ",
    "MOVEMtoMem",
    "MOVEMtoReg",
    "MOVEP",
    "MOVEP",
    "LEA",
    "PEA",
    "EXG",
    "EXG",
    "EXG",
    "SWAP",
    "LINK",
    "UNLK",
    "ADD",
    "ADD",
    "ADDA",
    "ADDI",
    "ADDQ",
    "ADDQ",
    "ADDX",
    "SUB",
    "SUB",
    "SUBA",
    "SUBI",
    "SUBQ",
    "SUBQ",
    "SUBX",
    "NEG",
    "NEGX",
    "CLR",
    "CMP",
    "CMPA",
    "CMPI",
    "CMPM",
    "MULS",
    "MULU",
    "DIVS",
    "DIVU",
    "EXT",
    "TAS",
    "TST",
    "AND",
    "AND",
    "ANDI",
    "OR",
    "OR",
    "ORI",
    "EOR",
    "EORI",
    "NOT",
    "-",
    "-",
    "-",
    "-",
    "ABCD",
    "SBCD",
    "NBCD",
    "B",
    "BRA",
    "BSR",
    "DB",
    "S",
    "JMP",
    "JSR",
    "NOP",
    "RTR",
    "RTS",
    "ANDItoCCR",
    "ANDItoSR",
    "EORItoCCR",
    "EORItoSR",
    "ORItoCCR",
    "ORItoSR",
    "MOVEfromSR",
    "MOVEtoCCR",
    "MOVEtoSR",
    "MOVEtoUSP",
    "MOVEfromUSP",
    "RESET",
    "RTE",
    "STOP",
    "TRAP",
    "TRAPV",
    "CHK",
];

const BITS: [&str; 4] = ["BTST", "BCHG", "BCLR", "BSET"];

const SHIFTS: [&str; 8] = ["ASR", "ASL", "LSR", "LSL", "ROXR", "ROXL", "ROR", "ROL"];

const SIZES: [&str; 3] = [".B", ".W", ".L"];

const CONDITIONS: [&str; 16] = [
    "T", "F", "HI", "LS", "CC", "CS", "NE", "EQ", "VC", "VS", "PL", "MI", "GE", "LT", "GT", "LE",
];

fn stem(op: u32) -> &'static str {
    match kind_table::kind_of(op) {
        kinds::BIT_DYNAMIC | kinds::BIT_STATIC => BITS[(op / 64 % 4) as usize],
        kinds::SHIFT_REGISTER => SHIFTS[(op / 8 % 4 * 2 + op / 256 % 2) as usize],
        kinds::SHIFT_MEMORY => SHIFTS[(op / 512 % 4 * 2 + op / 256 % 2) as usize],
        kind => STEMS.get(kind as usize).copied().unwrap_or("-"),
    }
}

fn ending(op: u32) -> &'static str {
    match kind_table::kind_of(op) {
        kinds::MOVE | kinds::MOVE_A => match op / 4096 {
            1 => ".B",
            2 => ".L",
            _ => ".W",
        },
        kinds::MOVE_M_TO_MEMORY
        | kinds::MOVE_M_TO_REGISTERS
        | kinds::MOVE_P_TO_REGISTER
        | kinds::MOVE_P_TO_MEMORY
        | kinds::EXT => SIZES[1 + (op / 64 % 2) as usize],
        kinds::ADD_A | kinds::SUB_A | kinds::CMP_A => SIZES[1 + (op / 256 % 2) as usize],
        kinds::SHIFT_MEMORY => ".W",
        kinds::BCC | kinds::DBCC | kinds::SCC => CONDITIONS[(op / 256 % 16) as usize],
        kinds::ADD_TO_REGISTER
        | kinds::ADD_TO_MEMORY
        | kinds::ADD_I
        | kinds::ADD_Q
        | kinds::ADD_Q_A
        | kinds::ADD_X
        | kinds::SUB_TO_REGISTER
        | kinds::SUB_TO_MEMORY
        | kinds::SUB_I
        | kinds::SUB_Q
        | kinds::SUB_Q_A
        | kinds::SUB_X
        | kinds::NEG
        | kinds::NEG_X
        | kinds::CLR
        | kinds::TST
        | kinds::NOT
        | kinds::CMP
        | kinds::CMP_I
        | kinds::CMP_M
        | kinds::SHIFT_REGISTER
        | kinds::AND_TO_REGISTER
        | kinds::AND_TO_MEMORY
        | kinds::AND_I
        | kinds::OR_TO_REGISTER
        | kinds::OR_TO_MEMORY
        | kinds::OR_I
        | kinds::EOR
        | kinds::EOR_I => SIZES.get((op / 64 % 4) as usize).copied().unwrap_or(""),
        _ => "",
    }
}

#[derive(Clone, Copy, PartialEq, Eq)]
pub struct Name {
    stem: &'static str,
    ending: &'static str,
}

impl Name {
    pub fn of(op: u32) -> Name {
        Name {
            stem: stem(op),
            ending: ending(op),
        }
    }
}

impl Display for Name {
    fn fmt<W: fmt::Write>(&self, f: &mut Formatter<W>) -> fmt::Result {
        let Name { stem, ending } = *self;
        write!(f, "{stem}{ending}")
    }
}
