// lib.rt - the register bank and the twelve addressing modes at three sizes, with their register steps and extension words.
// Means: specs/Operands.antt.  Laws: proofs/OperandLaws.antt.
// Uses: codes, bits, bus.  Source: [003 2.3], [003 2.7], [003 2.11], [01 Operands], [01 step 7].
#![tactic(auto)]

ghost use Rattle.std.specs.Prelude.{◌≡◌, ◌+◌, ◌/◌, ◌%◌, ◌<◌, map};
ghost use Rattle.bus.specs.Bus.{view_of};
ghost use Rattle.operand.specs.Operands.{get, put, increment, in_register, in_memory, number, indirect, postincrement, predecrement, displaced};
ghost use Rattle.operand.specs.Operands.{index_value, with_index, indexed, absolute_word, absolute_long, pc_displaced, pc_indexed, immediate};
ghost use Rattle.operand.specs.Operands.{special, locate, load, put_low, operand_with_flow, source, target, modify};

use bus::{Fetched, Flow, Parts};
use codes::SLOTS;

// Where an operand lies, by its kind: the register `at`, memory at `at` (read by the kind of access), or the number `at` itself. `reg`
// takes the value `step`, if it is a register. `flow` is where the instruction stands then.
#[derive(Clone, Copy)]
pub struct Operand {
    pub kind: u32,
    pub at: u32,
    pub access: u32,
    pub reg: u32,
    pub step: u32,
    pub flow: Flow,
}

// An operand that is read and will be written: its value, and its place with the flow after the read.
#[derive(Clone, Copy)]
pub struct Both {
    pub value: u32,
    pub q: Operand,
}

// A register's value, 0 where there is none: 0 to 7 are D0 to D7, 8 to 15 A0 to A7 (the active one), 16 USP in supervisor state. The three
// places behind them hold PC, SR and mode as they were, and no instruction reaches them.
pub fn get(r: &[u32; SLOTS], i: u32) -> u32
    ensures { result ≡ get r.now i }
{
    let k = i as usize;
    let there = i < codes::NO_REGISTER;
    if there { r[k] } else { 0 }
}

pub fn put(r: &mut [u32; SLOTS], i: u32, v: u32)
    ensures { r.new ≡ put r.old i v }
{
    let k = i as usize;
    let there = i < codes::NO_REGISTER;
    if there {
        r[k] = v;
        return;
    }
}

// By how much (An)+ and -(An) step: a byte of A7 by 2.
pub fn increment(n: u32, z: u32) -> u32
    ensures { result ≡ increment n z }
{
    let byte = z == 0;
    let word = z == 1;
    let seven = n == codes::STACK_POINTER;
    if byte {
        return 1 + bits::bit(seven);
    }
    if word {
        return 2;
    }
    4
}

fn in_register(i: u32, f: Flow) -> Operand
    ensures { result ≡ in_register i f }
{
    Operand {
        kind: codes::IN_REGISTER,
        at: i,
        access: 0,
        reg: codes::NO_REGISTER,
        step: 0,
        flow: f,
    }
}

fn in_memory(a: u32, k: u32, reg: u32, step: u32, f: Flow) -> Operand
    ensures { result ≡ in_memory a k reg step f }
{
    Operand {
        kind: codes::IN_MEMORY,
        at: a,
        access: k,
        reg,
        step,
        flow: f,
    }
}

fn number(v: u32, f: Flow) -> Operand
    ensures { result ≡ number v f }
{
    Operand {
        kind: codes::IN_INSTRUCTION,
        at: v,
        access: 0,
        reg: codes::NO_REGISTER,
        step: 0,
        flow: f,
    }
}

fn indirect(r: &[u32; SLOTS], n: u32, f: Flow) -> Operand
    ensures { result ≡ indirect r.now n f }
{
    let a = get(r, codes::A0 + n % 8);
    in_memory(a, codes::DATA_READ, codes::NO_REGISTER, 0, f)
}

fn postincrement(r: &[u32; SLOTS], n: u32, z: u32, f: Flow) -> Operand
    ensures { result ≡ postincrement r.now n z f }
{
    let a = get(r, codes::A0 + n % 8);
    in_memory(
        a,
        codes::DATA_READ,
        codes::A0 + n % 8,
        std::num::wrapping_add_u32(a, increment(n, z)),
        f,
    )
}

fn predecrement(r: &[u32; SLOTS], n: u32, z: u32, f: Flow) -> Operand
    ensures { result ≡ predecrement r.now n z f }
{
    let a = bits::minus(get(r, codes::A0 + n % 8), increment(n, z));
    in_memory(a, codes::DATA_READ, codes::A0 + n % 8, a, f)
}

fn displaced(r: &[u32; SLOTS], mem: &Parts, n: u32, f: Flow) -> Operand
    ensures { result ≡ displaced r.now (view_of (map (λ x. x.now) mem.now)) n f }
{
    let w = bus::next_word(mem, f);
    let g = w.flow;
    let a = std::num::wrapping_add_u32(get(r, codes::A0 + n % 8), bits::sign_word(w.value));
    in_memory(a, codes::DATA_READ, codes::NO_REGISTER, 0, g)
}

// The index register of an extension word: a word carried on to 32 bits, or a long.
fn index_value(r: &[u32; SLOTS], w: u32) -> u32
    ensures { result ≡ index_value r.now w }
{
    let x = get(r, w / 4096 % 16);
    let long = w / 2048 % 2 == 1;
    if long {
        return x;
    }
    bits::sign_word(x)
}

// A base with the byte and the index register of an extension word.
fn with_index(r: &[u32; SLOTS], base: u32, w: u32) -> u32
    ensures { result ≡ with_index r.now base w }
{
    let x = index_value(r, w);
    std::num::wrapping_add_u32(std::num::wrapping_add_u32(base, bits::sign_byte(w)), x)
}

fn indexed(r: &[u32; SLOTS], mem: &Parts, n: u32, f: Flow) -> Operand
    ensures { result ≡ indexed r.now (view_of (map (λ x. x.now) mem.now)) n f }
{
    let w = bus::next_word(mem, f);
    let g = w.flow;
    let a = with_index(r, get(r, codes::A0 + n % 8), w.value);
    in_memory(a, codes::DATA_READ, codes::NO_REGISTER, 0, g)
}

fn absolute_word(mem: &Parts, f: Flow) -> Operand
    ensures { result ≡ absolute_word (view_of (map (λ x. x.now) mem.now)) f }
{
    let w = bus::next_word(mem, f);
    let g = w.flow;
    in_memory(
        bits::sign_word(w.value),
        codes::DATA_READ,
        codes::NO_REGISTER,
        0,
        g,
    )
}

fn absolute_long(mem: &Parts, f: Flow) -> Operand
    ensures { result ≡ absolute_long (view_of (map (λ x. x.now) mem.now)) f }
{
    let w = bus::next_long(mem, f);
    let g = w.flow;
    in_memory(w.value, codes::DATA_READ, codes::NO_REGISTER, 0, g)
}

fn pc_displaced(mem: &Parts, f: Flow) -> Operand
    ensures { result ≡ pc_displaced (view_of (map (λ x. x.now) mem.now)) f }
{
    let pc = f.pc;
    let w = bus::next_word(mem, f);
    let g = w.flow;
    in_memory(
        std::num::wrapping_add_u32(pc, bits::sign_word(w.value)),
        codes::PROGRAM_READ,
        codes::NO_REGISTER,
        0,
        g,
    )
}

fn pc_indexed(r: &[u32; SLOTS], mem: &Parts, f: Flow) -> Operand
    ensures { result ≡ pc_indexed r.now (view_of (map (λ x. x.now) mem.now)) f }
{
    let pc = f.pc;
    let w = bus::next_word(mem, f);
    let g = w.flow;
    let a = with_index(r, pc, w.value);
    in_memory(a, codes::PROGRAM_READ, codes::NO_REGISTER, 0, g)
}

pub fn immediate(mem: &Parts, z: u32, f: Flow) -> Operand
    ensures { result ≡ immediate (view_of (map (λ x. x.now) mem.now)) z f }
{
    let long = codes::LONG <= z;
    if long {
        let w = bus::next_long(mem, f);
        let g = w.flow;
        return number(w.value, g);
    }
    let w = bus::next_word(mem, f);
    let g = w.flow;
    number(w.value, g)
}

// Mode 7, by its register number.
#[tactic(auto, unfolding(crate::specs::Operands::special))]
fn special(r: &[u32; SLOTS], mem: &Parts, n: u32, z: u32, f: Flow) -> Operand
    ensures { result ≡ special r.now (view_of (map (λ x. x.now) mem.now)) n z f }
{
    match n {
        0 => absolute_word(mem, f),
        1 => absolute_long(mem, f),
        2 => pc_displaced(mem, f),
        3 => pc_indexed(r, mem, f),
        _ => immediate(mem, z, f),
    }
}

// The place of the operand of a mode and a register number. No register is stepped yet.
#[tactic(auto, unfolding(crate::specs::Operands::locate))]
pub fn locate(r: &[u32; SLOTS], mem: &Parts, mode: u32, n: u32, z: u32, f: Flow) -> Operand
    ensures { result ≡ locate r.now (view_of (map (λ x. x.now) mem.now)) mode n z f }
{
    match mode {
        0 => in_register(n, f),
        1 => in_register(codes::A0 + n % 8, f),
        2 => indirect(r, n, f),
        3 => postincrement(r, n, z, f),
        4 => predecrement(r, n, z, f),
        5 => displaced(r, mem, n, f),
        6 => indexed(r, mem, n, f),
        _ => special(r, mem, n, z, f),
    }
}

// What an operand holds, cut to its size.
#[tactic(auto, unfolding(crate::specs::Operands::load))]
pub fn load(r: &[u32; SLOTS], mem: &Parts, p: Operand, z: u32, f: Flow) -> Fetched
    ensures { result ≡ load r.now (view_of (map (λ x. x.now) mem.now)) p z f }
{
    let kind = p.kind;
    let at = p.at;
    match kind {
        0 => Fetched {
            value: bits::cut(get(r, at) as u64, z),
            flow: f,
        },
        1 => bus::read_sized(mem, at, z, p.access, f),
        _ => Fetched {
            value: bits::cut(at as u64, z),
            flow: f,
        },
    }
}

// The low byte, word or long of a register.
pub fn put_low(r: &mut [u32; SLOTS], i: u32, z: u32, v: u32)
    ensures { r.new ≡ put_low r.old i z v }
{
    let old = get(r, i);
    let a = bits::cut(old as u64, z);
    let b = bits::cut(v as u64, z);
    put(r, i, bits::joined(old, a, b));
}

fn operand_with_flow(q: Operand, f: Flow) -> Operand
    ensures { result ≡ operand_with_flow q f }
{
    Operand {
        kind: q.kind,
        at: q.at,
        access: q.access,
        reg: q.reg,
        step: q.step,
        flow: f,
    }
}

// The operand's value, with its register stepped.
pub fn source(r: &mut [u32; SLOTS], mem: &Parts, mode: u32, n: u32, z: u32, f: Flow) -> Fetched
    ensures value { result ≡ (source r.old (view_of (map (λ x. x.now) mem.now)) mode n z f).w }
    ensures r_after { r.new ≡ (source r.old (view_of (map (λ x. x.now) mem.now)) mode n z f).r }
{
    let p = locate(r, mem, mode, n, z, f);
    let g = p.flow;
    let w = load(r, mem, p, z, g);
    put(r, p.reg, p.step);
    w
}

// The operand's place, with its register stepped.
pub fn target(r: &mut [u32; SLOTS], mem: &Parts, mode: u32, n: u32, z: u32, f: Flow) -> Operand
    ensures value { result ≡ (target r.old (view_of (map (λ x. x.now) mem.now)) mode n z f).q }
    ensures r_after { r.new ≡ (target r.old (view_of (map (λ x. x.now) mem.now)) mode n z f).r }
{
    let p = locate(r, mem, mode, n, z, f);
    put(r, p.reg, p.step);
    p
}

// The operand's value and place, with its register stepped.
pub fn modify(r: &mut [u32; SLOTS], mem: &Parts, mode: u32, n: u32, z: u32, f: Flow) -> Both
    ensures value { result ≡ (modify r.old (view_of (map (λ x. x.now) mem.now)) mode n z f).b }
    ensures r_after { r.new ≡ (modify r.old (view_of (map (λ x. x.now) mem.now)) mode n z f).r }
{
    let p = locate(r, mem, mode, n, z, f);
    let g = p.flow;
    let w = load(r, mem, p, z, g);
    put(r, p.reg, p.step);
    let h = w.flow;
    let q = operand_with_flow(p, h);
    Both { value: w.value, q }
}
