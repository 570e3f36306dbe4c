// lib.rt - MOVEM up to its writes: a list of registers walked to load them, and the plans of those that store. Crate blocks stores them.
// Means: specs/Movem.antt.  Laws: proofs/MovemLaws.antt; those of the order of the writes stand in proofs/ too.
// Uses: codes, bits, bus, operand, plan.  Source: [003 B MOVEM], [01 Operands].
#![tactic(auto)]

ghost use Rattle.std.specs.Prelude.{◌≡◌, map};
ghost use Rattle.bus.specs.Bus.{view_of};
ghost use Rattle.movem.specs.Movem.{first_spot, next_spot, load_one, load_list, movem_to_registers, movem_down, movem_to_memory};

use bus::{Flow, Parts};
use codes::SLOTS;
use plan::Plan;

// How a list of 16 bits is walked, lowest bit first: the size of each part that it has, the list, the address of its first part,
// and the way from one part to the next.
#[derive(Clone, Copy)]
pub struct Way {
    pub size: u32,
    pub list: u32,
    pub start: u32,
    pub step: u32,
}

// Where a walk stands: what is left of the list, the place of its lowest bit, the address, the flow.
#[derive(Clone, Copy)]
pub struct Spot {
    pub list: u32,
    pub index: u32,
    pub at: u32,
    pub flow: Flow,
}

// Where a walk begins.
pub fn first_spot(w: Way, f: Flow) -> Spot
    ensures { result ≡ first_spot w f }
{
    Spot {
        list: w.list,
        index: 0,
        at: w.start,
        flow: f,
    }
}

// Where it stands after one bit of its list.
#[tactic(auto, unfolding(crate::specs::Movem::next_spot))]
pub fn next_spot(w: Way, d: Spot, f: Flow) -> Spot
    ensures { result ≡ next_spot w d f }
{
    let on = d.list % 2 == 1;
    Spot {
        list: d.list / 2,
        index: d.index.wrapping_add(1),
        at: if on { d.at.wrapping_add(w.step) } else { d.at },
        flow: f,
    }
}

// Register k is loaded if the list has it; a word is carried on to 32 bits.
#[tactic(auto, unfolding(crate::specs::Movem::load_one))]
fn load_one(r: &mut [u32; SLOTS], mem: &Parts, k: u32, w: Way, d: Spot) -> Spot
    ensures { record { held = r.new; spot = result } ≡ load_one (view_of (map (λ x. x.now) mem.now)) k w (record { held = r.old; spot = d }) }
{
    let on = d.list % 2 == 1;
    if on {
        let y = bus::read_sized(mem, d.at, w.size, k, d.flow);
        operand::put(r, d.index, bits::sign_extended(y.value, w.size));
        return next_spot(w, d, y.flow);
    }
    next_spot(w, d, d.flow)
}

fn load_list(r: &mut [u32; SLOTS], mem: &Parts, k: u32, w: Way, f: Flow) -> Spot
    ensures { record { held = r.new; spot = result } ≡ load_list r.old (view_of (map (λ x. x.now) mem.now)) k w f }
{
    let mut d = first_spot(w, f);
    for _ in 0..16_u32 {
        d = load_one(r, mem, k, w, d);
    }
    d
}

// The address is formed once, before any load. (An)+, the only mode here that steps, leaves An at the final address.
#[tactic(auto, unfolding(crate::specs::Movem::movem_to_registers))]
pub fn movem_to_registers(r: &mut [u32; SLOTS], mem: &Parts, op: u32, f: Flow) -> Plan
    ensures { record { r = r.new; p = result } ≡ movem_to_registers r.old (view_of (map (λ x. x.now) mem.now)) op f }
{
    let z = 1 + op / 64 % 2;
    let l = bus::next_word(mem, f);
    let q = operand::locate(r, mem, op / 8 % 8, op % 8, z, l.flow);
    let w = Way {
        size: z,
        list: l.value,
        start: q.at,
        step: 2 * z,
    };
    let d = load_list(r, mem, q.access, w, q.flow);
    operand::put(r, q.reg, d.at);
    plan::nothing(d.flow)
}

// MOVEM to -(An): the plan has An's first value, the bank its last.
#[tactic(auto, unfolding(crate::specs::Movem::movem_down))]
fn movem_down(r: &mut [u32; SLOTS], list: u32, op: u32, f: Flow) -> Plan
    ensures { record { r = r.new; p = result } ≡ movem_down r.old list op f }
{
    let i = codes::A0 + op % 8;
    let a = operand::get(r, i);
    let n = bits::ones_of(list);
    operand::put(r, i, bits::minus(a, n * 2 * (1 + op / 64 % 2)));
    plan::writing(
        codes::BLOCK_DOWN + op / 64 % 2,
        a,
        list % 65536 + 65536 * i,
        f,
    )
}

#[tactic(auto, unfolding(crate::specs::Movem::movem_to_memory))]
pub fn movem_to_memory(r: &mut [u32; SLOTS], mem: &Parts, op: u32, f: Flow) -> Plan
    ensures { record { r = r.new; p = result } ≡ movem_to_memory r.old (view_of (map (λ x. x.now) mem.now)) op f }
{
    let l = bus::next_word(mem, f);
    let down = op / 8 % 8 == codes::PREDECREMENT;
    if down {
        return movem_down(r, l.value, op, l.flow);
    }
    let q = operand::locate(r, mem, op / 8 % 8, op % 8, 1 + op / 64 % 2, l.flow);
    plan::writing(
        codes::BLOCK_UP + op / 64 % 2,
        q.at,
        l.value + 65536 * codes::NO_REGISTER,
        q.flow,
    )
}
