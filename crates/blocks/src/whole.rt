// whole.rt - a block that lies in memory as a whole: its start and the count of its list say so, and its list is walked once, to store it.
// Means: specs/Whole.antt of the crate movem.  Laws: FitsLaws there; proofs/WholeLaws.antt, proofs/ValueLaws.antt here.
// Uses: codes, bits, operand, plan, store, touch, movem.  Source: [K6], [003 B MOVEM], [01 step 6].
ghost use Rattle.std.specs.Prelude.{◌≡◌, ◌+◌, ◌≤◌, true, length};
ghost use Rattle.codes.specs.Codes.{Slots};
ghost use Rattle.bus.specs.Bus.{pins};
ghost use Rattle.touch.specs.Touch.{AllBelow, LogOk, Noted};
ghost use Rattle.movem.specs.Movem.{put_way, block_put};
ghost use Rattle.movem.specs.Whole.{fits, skipped, passed, Inside, put_values};

use bus::Flow;
use codes::SLOTS;
use movem::{Spot, Way};
use plan::Plan;

// Whether a block of words lies as a whole from one address to below another, from an even start.
pub fn fits(lo: usize, hi: usize, p: Plan) -> bool
    ensures { result ≡ fits lo hi p }
{
    let w = crate::put_way(p);
    let n = bits::ones_of(p.value) * w.step;
    let words = (codes::BLOCK_UP <= p.write) & (p.write < codes::EVERY_OTHER);
    let even = w.start % 2 == 0;
    let start = (w.start % codes::ADDRESSES) as usize;
    let end = start + (n as usize);
    words & even & (lo <= start) & (end <= hi) & (end <= codes::ADDRESSES as usize)
}

// The walk at the next register that the list has.
#[tactic(auto, unfolding(movem::specs::Whole::skipped))]
fn skipped(d: Spot) -> Spot
    requires { 1 ≤ d.list }
    ensures { result ≡ skipped d }
{
    let z = d.list.trailing_zeros();
    Spot {
        list: d.list >> z,
        index: d.index.wrapping_add(z),
        ..d
    }
}

// The walk after a register that the list has.
#[tactic(auto, unfolding(movem::specs::Whole::passed))]
fn passed(w: Way, d: Spot) -> Spot
    ensures { result ≡ passed w d }
{
    Spot {
        list: d.list / 2,
        index: d.index.wrapping_add(1),
        at: d.at.wrapping_add(w.step),
        ..d
    }
}

// Puts the values that the list has, from one to the next, and notes what stood there; how many entries the log then has. The way lies in
// memory as a whole, above all that are noted.
fn store_values(memory: &mut [u8], log: &mut [u64], n: usize, t: &[u32], w: Way, f: Flow) -> usize
    requires log_ok { LogOk memory.old log.old n × (n + 64 ≤ length log.old) × (length t.now ≡ Slots) }
    requires inside { Inside (length memory.old) w × AllBelow log.old n (pins w.start) }
    ensures memory { memory.new ≡ put_values t.now w f memory.old }
    ensures noted { Noted memory.old log.old n 64 memory.new log.new result }
{
    let mut d = movem::first_spot(w, f);
    let mut m = n;
    // A `while`: a turn passes as many registers as stand below the next one of the list, so no range has the turns.
    while d.list != 0 {
        let e = skipped(d);
        let i = e.index as usize;
        m = store::sized_above(memory, log, m, e.at, w.size, t[i]);
        d = passed(w, e);
    }
    m
}

// The writes of a block that fits and lies above all that are noted; how many entries the log then has. The registers are copied once, with
// the first value of the one that -(An) lowered: then none is asked whether it is that one.
pub fn store_whole(memory: &mut [u8], log: &mut [u64], n: usize, r: &[u32; SLOTS], p: Plan) -> usize
    requires log_ok { LogOk memory.old log.old n × (n + 64 ≤ length log.old) }
    requires p_value { (fits 0 (length memory.old) p ≡ true) × AllBelow log.old n (pins (put_way p).start) }
    ensures memory { memory.new ≡ block_put memory.old r.now p }
    ensures noted { Noted memory.old log.old n 64 memory.new log.new result }
{
    let w = crate::put_way(p);
    let mut t = *r;
    operand::put(&mut t, p.value / 65536, p.at);
    store_values(memory, log, n, &t, w, p.flow)
}
