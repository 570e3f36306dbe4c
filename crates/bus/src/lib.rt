// lib.rt - memory and ROM as a state may see them: reads with their faults, room for a write, and the words of an instruction in turn.
// Means: specs/Bus.antt.  Laws: proofs/BusLaws.antt.
// Uses: codes, bits.  Source: [003 2.4], [003 4-1], [003 4.4.9], [003 4.4.10], [01 Memory], [01 step 6], [01 step 7], [K7], [K10].
#![tactic(auto)]

ghost use Rattle.std.specs.Prelude.{◌≡◌, ◌+◌, ◌*◌, ◌/◌, ◌%◌, ◌<◌, [], map, length};
ghost use Rattle.bus.specs.Bus.{two_at, all_of, part, rom_of, view_of, whole, failed, with_pc, with_sr, found_byte, found_word, read_byte, read_word, read_long, read_sized};
ghost use Rattle.bus.specs.Bus.{for_writing, room, next_word, next_long};

// The addresses that user state may touch: from lo to below hi. The host sets it; no step or undo changes it.
#[derive(Clone, Copy)]
pub struct Window {
    pub lo: u32,
    pub hi: u32,
}

// How many parts are lent for a view: what of memory lies below the window, of which only the length counts, and what lies below the
// window's end; and the same two of the ROM. Addresses are places in the second one, and those from ROM_START on places in the fourth.
pub const PARTS: usize = 4;

pub type Parts<'a> = [&'a [u8]; PARTS];

// Where an instruction stands: the next word's address, the status register, and the fault so far, 0 if none: the 24-bit address
// of the access times 256, the information word times 4, and the vector, 2 or 3.
#[derive(Clone, Copy)]
pub struct Flow {
    pub pc: u32,
    pub sr: u32,
    pub bad: u32,
}

// A number that was read (0 after a fault), and where the instruction then stands.
#[derive(Clone, Copy)]
pub struct Fetched {
    pub value: u32,
    pub flow: Flow,
}

// A fault of an access of kind k; the supervisor's function codes are 4 more than the user's.
pub fn failed(f: Flow, vec: u32, at: u32, k: u32) -> Flow
    ensures { result ≡ failed f vec at k }
{
    Flow {
        pc: f.pc,
        sr: f.sr,
        bad: at % codes::ADDRESSES * 256
            + (k % 32 + f.sr / codes::SUPERVISOR % 2 * 4) * 4
            + vec % 4,
    }
}

pub fn with_pc(f: Flow, pc: u32) -> Flow
    ensures { result ≡ with_pc f pc }
{
    Flow {
        pc,
        sr: f.sr,
        bad: f.bad,
    }
}

pub fn with_sr(f: Flow, sr: u32) -> Flow
    ensures { result ≡ with_sr f sr }
{
    Flow {
        pc: f.pc,
        sr,
        bad: f.bad,
    }
}

// The parts that show all of a memory and of a ROM.
pub fn whole<'a>(mem: &'a [u8], rom: &'a [u8]) -> Parts<'a>
    ensures { map (λ x. x.now) result ≡ whole mem.now rom.now }
{
    let none = &mem[0..0];
    [none, mem, none, rom]
}

// The parts that show all of a memory, and no ROM.
fn alone<'a>(mem: &'a [u8]) -> Parts<'a>
    ensures { map (λ x. x.now) result ≡ whole mem.now [] }
{
    let none = &mem[0..0];
    [none, mem, none, none]
}

// The first address that may be touched.
pub fn low(mem: &Parts) -> usize
    ensures { result ≡ length (part (map (λ x. x.now) mem.now) 0) }
{
    mem[0].len()
}

// Memory below the last one.
pub fn below<'a, 'b>(mem: &'a Parts<'b>) -> &'b [u8]
    ensures { result.now ≡ part (map (λ x. x.now) mem.now) 1 }
{
    mem[1]
}

// The first place of the ROM that may be touched.
fn rom_low(mem: &Parts) -> usize
    ensures { result ≡ length (part (map (λ x. x.now) mem.now) 2) }
{
    mem[2].len()
}

// The ROM below the last one.
fn rom_below<'a, 'b>(mem: &'a Parts<'b>) -> &'b [u8]
    ensures { result.now ≡ part (map (λ x. x.now) mem.now) 3 }
{
    mem[3]
}

// A byte at 24 bits that memory does not have. The place is one of the ROM only where p is not below its start.
fn rom_byte(mem: &Parts, p: u32, k: u32, f: Flow) -> Fetched
    ensures value { result ≡ found_byte (rom_of (map (λ x. x.now) mem.now)) p k f }
    ensures value_bound { result.value < 256 }
{
    let there = codes::ROM_START <= p;
    let i = std::num::wrapping_sub_u32(p, codes::ROM_START) as usize;
    let first = rom_low(mem);
    let rom = rom_below(mem);
    let inside = there & (first <= i) & (i < rom.len());
    if inside {
        return Fetched {
            value: bits::wide(rom[i]),
            flow: f,
        };
    }
    Fetched {
        value: 0,
        flow: failed(f, codes::BUS_ERROR, p, k),
    }
}

// Likewise a word.
fn rom_word(mem: &Parts, p: u32, k: u32, f: Flow) -> Fetched
    ensures value { result ≡ found_word (rom_of (map (λ x. x.now) mem.now)) p k f }
    ensures value_bound { result.value < 65536 }
{
    let there = codes::ROM_START <= p;
    let i = std::num::wrapping_sub_u32(p, codes::ROM_START) as usize;
    let first = rom_low(mem);
    let rom = rom_below(mem);
    let inside = there & (first <= i) & (i + 1 < rom.len());
    if inside {
        return Fetched {
            value: bits::wide(rom[i]) * 256 + bits::wide(rom[i + 1]),
            flow: f,
        };
    }
    Fetched {
        value: 0,
        flow: failed(f, codes::BUS_ERROR, p, k),
    }
}

// Memory is asked before ROM.
pub fn read_byte(mem: &Parts, a: u32, k: u32, f: Flow) -> Fetched
    ensures value { result ≡ read_byte (view_of (map (λ x. x.now) mem.now)) a k f }
    ensures value_bound { result.value < 256 }
{
    let p = a % codes::ADDRESSES;
    let i = p as usize;
    let clean = f.bad == 0;
    if clean {
        let first = low(mem);
        let there = below(mem);
        let inside = (first <= i) & (i < there.len());
        if inside {
            Fetched {
                value: bits::wide(there[i]),
                flow: f,
            }
        } else {
            rom_byte(mem, p, k, f)
        }
    } else {
        Fetched { value: 0, flow: f }
    }
}

// Odd is asked before outside.
pub fn read_word(mem: &Parts, a: u32, k: u32, f: Flow) -> Fetched
    ensures value { result ≡ read_word (view_of (map (λ x. x.now) mem.now)) a k f }
    ensures value_bound { result.value < 65536 }
{
    let p = a % codes::ADDRESSES;
    let i = p as usize;
    let clean = f.bad == 0;
    let odd = p % 2 == 1;
    if clean {
        if odd {
            return Fetched {
                value: 0,
                flow: failed(f, codes::ADDRESS_ERROR, p, k),
            };
        }
        let first = low(mem);
        let there = below(mem);
        let inside = (first <= i) & (i + 1 < there.len());
        if inside {
            Fetched {
                value: bits::wide(there[i]) * 256 + bits::wide(there[i + 1]),
                flow: f,
            }
        } else {
            rom_word(mem, p, k, f)
        }
    } else {
        Fetched { value: 0, flow: f }
    }
}

// Below this address a long does not go on at address 0.
const WHOLE_LONGS: u32 = codes::ADDRESSES - 4;

// The two bytes of a slice at a place, high byte first.
fn two_at(there: &[u8], i: usize) -> u32
    requires { i + 1 < length there.now }
    ensures value { result ≡ two_at there.now i }
    ensures upper_bound { result < 65536 }
{
    bits::wide(there[i]) * 256 + bits::wide(there[i + 1])
}

// Two words, the upper first. Where both lie in memory, and the second is not at address 0 again, they are asked for at once.
pub fn read_long(mem: &Parts, a: u32, k: u32, f: Flow) -> Fetched
    ensures { result ≡ read_long (view_of (map (λ x. x.now) mem.now)) a k f }
{
    let p = a % codes::ADDRESSES;
    let i = p as usize;
    let first = low(mem);
    let there = below(mem);
    let plain = (f.bad == 0)
        & (p % 2 == 0)
        & (p < WHOLE_LONGS)
        & (first <= i)
        & (i + 3 < there.len());
    if plain {
        return Fetched {
            value: two_at(there, i) * 65536 + two_at(there, i + 2),
            flow: f,
        };
    }
    let h = read_word(mem, a, k, f);
    let hf = h.flow;
    let l = read_word(mem, std::num::wrapping_add_u32(a, 2), k, hf);
    let lf = l.flow;
    Fetched {
        value: h.value * 65536 + l.value,
        flow: lf,
    }
}

pub fn read_sized(mem: &Parts, a: u32, z: u32, k: u32, f: Flow) -> Fetched
    ensures { result ≡ read_sized (view_of (map (λ x. x.now) mem.now)) a z k f }
{
    let byte = z == 0;
    let word = z == 1;
    if byte {
        return read_byte(mem, a, k, f);
    }
    if word {
        return read_word(mem, a, k, f);
    }
    read_long(mem, a, k, f)
}

// Whether a byte can be written there, as the fault that the flow then carries. ROM is not asked.
fn room_byte(mem: &Parts, a: u32, f: Flow) -> Flow
    ensures { result ≡ (read_byte (for_writing (view_of (map (λ x. x.now) mem.now))) a 1 f).flow }
{
    let p = a % codes::ADDRESSES;
    let i = p as usize;
    let clean = f.bad == 0;
    if clean {
        let first = low(mem);
        let there = below(mem);
        let free = (first <= i) & (i < there.len());
        if free {
            return f;
        }
        return failed(f, codes::BUS_ERROR, p, codes::DATA_WRITE);
    }
    f
}

// Whether a word can, likewise; odd is asked before outside.
fn room_word(mem: &Parts, a: u32, f: Flow) -> Flow
    ensures { result ≡ (read_word (for_writing (view_of (map (λ x. x.now) mem.now))) a 1 f).flow }
{
    let p = a % codes::ADDRESSES;
    let i = p as usize;
    let clean = f.bad == 0;
    let odd = p % 2 == 1;
    if clean {
        if odd {
            return failed(f, codes::ADDRESS_ERROR, p, codes::DATA_WRITE);
        }
        let first = low(mem);
        let there = below(mem);
        let free = (first <= i) & (i + 1 < there.len());
        if free {
            return f;
        }
        return failed(f, codes::BUS_ERROR, p, codes::DATA_WRITE);
    }
    f
}

// Whether that many bytes can be written there.
pub fn room(mem: &Parts, a: u32, z: u32, f: Flow) -> Flow
    ensures { result ≡ room (view_of (map (λ x. x.now) mem.now)) a z f }
{
    let byte = z == 0;
    let word = z == 1;
    if byte {
        return room_byte(mem, a, f);
    }
    if word {
        return room_word(mem, a, f);
    }
    let g = room_word(mem, a, f);
    room_word(mem, std::num::wrapping_add_u32(a, 2), g)
}

// The fault that a flow then carries, 0 if none. By numbers: a caller that has the flow in registers keeps it there.
pub fn room_fault(mem: &Parts, a: u32, z: u32, pc: u32, sr: u32, bad: u32) -> u32
    ensures { result ≡ (room (view_of (map (λ x. x.now) mem.now)) a z (record { pc = pc; sr = sr; bad = bad })).bad }
{
    let f = Flow { pc, sr, bad };
    let g = room(mem, a, z, f);
    g.bad
}

// ---- the same in all of memory and no ROM, for what no window hides: frames and vectors

pub fn room_anywhere(mem: &[u8], a: u32, z: u32, f: Flow) -> Flow
    ensures { result ≡ room (all_of mem.now) a z f }
{
    let all = alone(mem);
    room(&all, a, z, f)
}

pub fn read_long_anywhere(mem: &[u8], a: u32, k: u32, f: Flow) -> Fetched
    ensures { result ≡ read_long (all_of mem.now) a k f }
{
    let all = alone(mem);
    read_long(&all, a, k, f)
}

// ---- the words of an instruction

// The next word of the instruction.
pub fn next_word(mem: &Parts, f: Flow) -> Fetched
    ensures value { result ≡ next_word (view_of (map (λ x. x.now) mem.now)) f }
    ensures value_bound { result.value < 65536 }
{
    let pc = f.pc;
    let w = read_word(mem, pc, codes::PROGRAM_READ, f);
    let g = w.flow;
    let h = with_pc(g, std::num::wrapping_add_u32(pc, 2));
    Fetched {
        value: w.value,
        flow: h,
    }
}

pub fn next_long(mem: &Parts, f: Flow) -> Fetched
    ensures { result ≡ next_long (view_of (map (λ x. x.now) mem.now)) f }
{
    let h = next_word(mem, f);
    let hf = h.flow;
    let l = next_word(mem, hf);
    let lf = l.flow;
    Fetched {
        value: h.value * 65536 + l.value,
        flow: lf,
    }
}
