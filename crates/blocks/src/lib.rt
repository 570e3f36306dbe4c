// lib.rt - the writes of a plan's block: MOVEM's registers, MOVEP's bytes. Its room is asked, and it is stored, its list walked once.
// Means: specs/Movem.antt of the crate movem.  Laws: proofs/StoringLaws.antt here; MovemLaws, FitsLaws there.
// Uses: codes, bits, bus, operand, plan, store, touch, movem.  Source: [003 B MOVEM], [003 B MOVEP], [01 step 6], [01 Operands], [K6].
#![tactic(auto)]

ghost use Rattle.std.specs.Prelude.{◌≡◌, ◌+◌, ◌*◌, ◌/◌, ◌%◌, ◌<◌, ◌≤◌, map, length};
ghost use Rattle.bus.specs.Bus.{view_of};
ghost use Rattle.touch.specs.Touch.{LogOk, Noted};
ghost use Rattle.movem.specs.Movem.{room_way, room_one, room_list, block_room, mirrored_byte, mirrored, put_way, stored, byte_of, part_of};
ghost use Rattle.movem.specs.Movem.{put_part, block_put};

mod whole;

use bus::{Flow, Parts};
use codes::SLOTS;
use movem::{Spot, Way};
use plan::Plan;

// A plan's block as its room is asked: upward, downward from A7, every other byte.
#[tactic(auto, unfolding(movem::specs::Movem::room_way))]
fn room_way(p: Plan) -> Way
    ensures { result ≡ room_way p }
{
    let z = 1 + p.write % 2;
    let list = p.value % 65536;
    match p.write / 2 {
        codes::UPWARD => Way {
            size: z,
            list,
            start: p.at,
            step: 2 * z,
        },
        codes::DOWNWARD => Way {
            size: z,
            list,
            start: bits::minus(p.at, 2 * z),
            step: bits::minus(0, 2 * z),
        },
        _ => Way {
            size: codes::BYTE,
            list: 3 + p.write % 2 * 12,
            start: p.at,
            step: 2,
        },
    }
}

#[tactic(auto, unfolding(movem::specs::Movem::room_one))]
fn room_one(mem: &Parts, w: Way, d: Spot) -> Spot
    ensures { result ≡ room_one (view_of (map (λ x. x.now) mem.now)) w d }
{
    let on = d.list % 2 == 1;
    if on {
        return movem::next_spot(w, d, bus::room(mem, d.at, w.size, d.flow));
    }
    movem::next_spot(w, d, d.flow)
}

fn room_list(mem: &Parts, w: Way, f: Flow) -> Spot
    ensures { result ≡ room_list (view_of (map (λ x. x.now) mem.now)) w f }
{
    let mut d = movem::first_spot(w, f);
    for _ in 0..16_u32 {
        d = room_one(mem, w, d);
    }
    d
}

// The flow with the fault that the block's writes meet first, if any. Where all of the block may be touched none does, and no word of it is
// asked for.
#[tactic(auto, using(movem::proofs::FitsLaws::room_whole), unfolding(movem::specs::Movem::block_room))]
pub fn block_room(mem: &Parts, p: Plan) -> Flow
    ensures { result ≡ block_room (view_of (map (λ x. x.now) mem.now)) p }
{
    let whole = whole::fits(bus::low(mem), bus::below(mem).len(), p);
    if whole {
        return p.flow;
    }
    room_list(mem, room_way(p), p.flow).flow
}

fn mirrored_byte(x: u32) -> u32
    ensures { (result ≡ mirrored_byte x) × (result < 256) }
{
    x % 2 * 128
        + x / 2 % 2 * 64
        + x / 4 % 2 * 32
        + x / 8 % 2 * 16
        + x / 16 % 2 * 8
        + x / 32 % 2 * 4
        + x / 64 % 2 * 2
        + x / 128 % 2
}

// The low sixteen bits in the other order.
#[tactic(auto, unfolding(movem::specs::Movem::mirrored))]
fn mirrored(x: u32) -> u32
    ensures { result ≡ mirrored x }
{
    mirrored_byte(x) * 256 + mirrored_byte(x / 256)
}

// A plan's block as it is stored, always upward: for -(An) from where An ended.
#[tactic(auto, unfolding(movem::specs::Movem::put_way))]
fn put_way(p: Plan) -> Way
    ensures { result ≡ put_way p }
{
    let z = 1 + p.write % 2;
    let down = p.write / 2 == codes::DOWNWARD;
    if down {
        let n = bits::ones_of(p.value);
        return Way {
            size: z,
            list: mirrored(p.value),
            start: bits::minus(p.at, n * 2 * z),
            step: 2 * z,
        };
    }
    room_way(p)
}

// Register i as MOVEM stores it: the one that -(An) lowered, `own`, by its first value.
#[tactic(auto, unfolding(movem::specs::Movem::stored))]
fn stored(r: &[u32; SLOTS], first: u32, own: u32, i: u32) -> u32
    ensures { result ≡ stored r.now first own i }
{
    if i == own {
        return first;
    }
    operand::get(r, i)
}

// The bytes of a long, high byte first, each as the low byte of a number.
#[tactic(auto, unfolding(movem::specs::Movem::byte_of))]
fn byte_of(v: u32, j: u32) -> u32
    ensures { result ≡ byte_of v j }
{
    match j {
        0 => v / 0x100_0000,
        1 => v / 65536,
        2 => v / 256,
        _ => v,
    }
}

// What a block has at place k of its list.
#[tactic(auto, unfolding(movem::specs::Movem::part_of))]
fn part_of(r: &[u32; SLOTS], p: Plan, k: u32) -> u32
    ensures { result ≡ part_of r.now p k }
{
    if codes::EVERY_OTHER <= p.write {
        return byte_of(p.value, k % 16 + 2 - p.write % 2 * 2);
    }
    stored(r, p.at, p.value / 65536, k)
}

// One part of a block, if the list has it, is noted in the log and put; how many entries the log then has.
#[tactic(auto, unfolding(movem::specs::Movem::put_part))]
fn store_part(
    memory: &mut [u8],
    log: &mut [u64],
    n: usize,
    r: &[u32; SLOTS],
    p: Plan,
    w: Way,
    d: Spot,
) -> usize
    requires { LogOk memory.old log.old n × (n + 4 ≤ length log.old) }
    ensures memory { memory.new ≡ put_part r.now p w d memory.old }
    ensures noted { Noted memory.old log.old n 4 memory.new log.new result }
{
    let on = d.list % 2 == 1;
    if on {
        let v = part_of(r, p, d.index);
        return store::store_sized(memory, log, n, d.at, w.size, v);
    }
    n
}

// The writes of any block, noted, part by part as the walk comes to them; how many entries the log then has.
fn store_list(memory: &mut [u8], log: &mut [u64], n: usize, r: &[u32; SLOTS], p: Plan) -> usize
    requires { LogOk memory.old log.old n × (n + 64 ≤ length log.old) }
    ensures memory { memory.new ≡ block_put memory.old r.now p }
    ensures noted { Noted memory.old log.old n 64 memory.new log.new result }
{
    let w = put_way(p);
    let mut d = movem::first_spot(w, p.flow);
    let mut m = n;
    for _ in 0..16_u32 {
        m = store_part(memory, log, m, r, p, w, d);
        d = movem::next_spot(w, d, p.flow);
    }
    m
}

// The writes of a block, noted; how many entries the log then has. One that lies in memory as a whole, above all that are noted, is the
// common one: nothing more is asked for it.
pub fn block_store(memory: &mut [u8], log: &mut [u64], n: usize, r: &[u32; SLOTS], p: Plan) -> usize
    requires { LogOk memory.old log.old n × (n + 64 ≤ length log.old) }
    ensures memory { memory.new ≡ block_put memory.old r.now p }
    ensures noted { Noted memory.old log.old n 64 memory.new log.new result }
{
    let w = put_way(p);
    if whole::fits(0, memory.len(), p) & touch::above(log, n, w.start % codes::ADDRESSES) {
        return whole::store_whole(memory, log, n, r, p);
    }
    store_list(memory, log, n, r, p)
}
