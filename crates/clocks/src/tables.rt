// tables.rt - the tables of Appendix D: each an array that is only read, and one function that reads a row of any.
// Means: specs/Tables.antt, specs/Unrolled.antt.  Laws: proofs/UnrolledLaws.antt.
// Uses: nothing.  Source: [003 D-1] to [003 D-3], [003 D-8], [003 D-10], [003 D-14]; why MOVE's are by field: [D59].
ghost use Rattle.std.specs.Prelude.{◌≡◌, get_or};
ghost use Rattle.clocks.specs.Tables.{operand_table, lea_table, jmp_table, store_table, load_table, bit_table, exception_table};
ghost use Rattle.clocks.specs.Unrolled.{source_rows, destination_rows};

// Row i of a table, or what stands for the rows past its end.
fn row(table: &[u8], i: u32, past: u8) -> u8
    ensures { result ≡ get_or table.now i past }
{
    table.get(i as usize).copied().unwrap_or(past)
}

// D-1, by addressing mode and size: twice the row of a mode, and 1 more for a long.
static OPERAND: [u8; 24] = [
    0, 0, 0, 0, 4, 8, 4, 8, 6, 10, 8, 12, 10, 14, 8, 12, 12, 16, 8, 12, 10, 14, 4, 8,
];

pub fn operand(i: u32) -> u8
    ensures { result ≡ get_or operand_table i 0 }
{
    row(&OPERAND, i, 0)
}

// D-10, LEA.
static LEA: [u8; 11] = [0, 0, 4, 0, 0, 8, 12, 8, 12, 8, 12];

pub fn lea(i: u32) -> u8
    ensures { result ≡ get_or lea_table i 0 }
{
    row(&LEA, i, 0)
}

// D-10, JMP.
static JMP: [u8; 11] = [0, 0, 8, 0, 0, 10, 14, 10, 12, 10, 14];

pub fn jmp(i: u32) -> u8
    ensures { result ≡ get_or jmp_table i 0 }
{
    row(&JMP, i, 0)
}

// D-10, MOVEM to memory.
static STORE: [u8; 9] = [0, 0, 8, 0, 8, 12, 14, 12, 16];

pub fn store(i: u32) -> u8
    ensures { result ≡ get_or store_table i 0 }
{
    row(&STORE, i, 0)
}

// D-10, MOVEM from memory.
static LOAD: [u8; 11] = [0, 0, 12, 12, 0, 16, 18, 16, 20, 16, 18];

pub fn load(i: u32) -> u8
    ensures { result ≡ get_or load_table i 0 }
{
    row(&LOAD, i, 0)
}

// D-8.
static BIT: [u8; 8] = [6, 4, 8, 8, 10, 8, 8, 8];

pub fn bit(i: u32) -> u8
    ensures { result ≡ get_or bit_table i 0 }
{
    row(&BIT, i, 0)
}

// D-14, by vector; TRAP's past its end.
static EXCEPTION: [u8; 12] = [40, 40, 50, 50, 34, 42, 44, 34, 34, 34, 34, 34];

pub fn exception(i: u32) -> u8
    ensures { result ≡ get_or exception_table i 38 }
{
    row(&EXCEPTION, i, 38)
}

// D-1 for MOVE's source of a byte or word, by the six bits of its effective address.
#[rattlefmt::skip]
static SOURCE: [u8; 64] = [
    0, 0, 0, 0, 0, 0, 0, 0,
    0, 0, 0, 0, 0, 0, 0, 0,
    4, 4, 4, 4, 4, 4, 4, 4,
    4, 4, 4, 4, 4, 4, 4, 4,
    6, 6, 6, 6, 6, 6, 6, 6,
    8, 8, 8, 8, 8, 8, 8, 8,
    10, 10, 10, 10, 10, 10, 10, 10,
    8, 12, 8, 10, 4, 0, 0, 0,
];

pub fn source(i: u32) -> u8
    ensures { result ≡ get_or source_rows i 0 }
{
    row(&SOURCE, i, 0)
}

// D-2 by MOVE's destination, the six bits of it: the register above the mode.
#[rattlefmt::skip]
static DESTINATION: [u8; 64] = [
    4, 4, 8, 8, 8, 12, 14, 12,
    4, 4, 8, 8, 8, 12, 14, 16,
    4, 4, 8, 8, 8, 12, 14, 0,
    4, 4, 8, 8, 8, 12, 14, 0,
    4, 4, 8, 8, 8, 12, 14, 0,
    4, 4, 8, 8, 8, 12, 14, 0,
    4, 4, 8, 8, 8, 12, 14, 0,
    4, 4, 8, 8, 8, 12, 14, 0,
];

pub fn destination(i: u32) -> u8
    ensures { result ≡ get_or destination_rows i 0 }
{
    row(&DESTINATION, i, 0)
}
