// lib.rt - one whole step: an interrupt that is taken, or one instruction, from its operation word to its end; a stopped machine; its clocks.
// Means: specs/Steps.antt of the crate step, where the laws and the theorems stand; step has the end of an instruction too.
// Uses: codes, bus, reach, plan, clocks, blocks, touch, bank, exception, execute, step.  Source: [003 4.1], [003 4.4.2], [01 One step], [K2], [K7], [K10].
#![tactic(auto)]

ghost use Rattle.std.specs.Prelude.{◌≡◌, map, ◌≤◌, ◌<◌, length};
ghost use Rattle.bank.specs.Bank.{supervisor};
ghost use Rattle.bus.specs.Bus.{board_of, seen_by, view_of};
ghost use Rattle.touch.specs.Touch.{LogOk, Noted};
ghost use Rattle.step.specs.Steps.{plan_with_flow, checked, attempt, begun, instruction, interrupt_sr, interrupt, one_step};
ghost use Rattle.step.specs.Steps.{instruction_clocks, interrupt_clocks, step_clocks};

use bus::{Flow, Parts, Window};
use codes::SLOTS;
use exception::Ended;
use plan::Plan;
use step::{Taken, Tried};

fn plan_with_flow(p: Plan, f: Flow) -> Plan
    ensures { result ≡ plan_with_flow p f }
{
    Plan {
        write: p.write,
        at: p.at,
        value: p.value,
        vector: p.vector,
        flow: f,
    }
}

// The plan, with the fault of a write for which there is no room.
fn checked(mem: &Parts, p: Plan) -> Plan
    ensures { result ≡ checked (view_of (map (λ x. x.now) mem.now)) p }
{
    let f = p.flow;
    let none = p.write == codes::NO_WRITE;
    let one = p.write < codes::NO_WRITE;
    if none {
        return p;
    }
    if one {
        let bad = bus::room_fault(mem, p.at, p.write, f.pc, f.sr, f.bad);
        return plan_with_flow(
            p,
            Flow {
                pc: f.pc,
                sr: f.sr,
                bad,
            },
        );
    }
    plan_with_flow(p, blocks::block_room(mem, p))
}

// An instruction, up to its writes: all that it sees are the registers, PC, SR and the view of memory.
fn attempt(r: &mut [u32; SLOTS], mem: &Parts, f: Flow) -> Tried
    ensures result_value { record { r = r.new; t = result } ≡ attempt r.old (view_of (map (λ x. x.now) mem.now)) f }
    ensures clocks_bound { result.clocks < 512 }
{
    let w = bus::next_word(mem, f);
    let g = w.flow;
    let t = execute::execute(r, mem, w.value, g);
    let p = t.plan;
    let q = checked(mem, p);
    Tried {
        op: w.value,
        p: q,
        clocks: t.clocks,
    }
}

// The same over all of memory and of the ROM: it is lent what the state may see.
fn lent_attempt<'a>(
    r: &mut [u32; SLOTS],
    win: Window,
    mem: &'a [u8],
    rom: &'a [u8],
    f: Flow,
) -> Tried
    ensures result_value { record { r = r.new; t = result } ≡ attempt r.old (seen_by (supervisor f.sr) (board_of win rom.now) mem.now) f }
    ensures clocks_bound { result.clocks < 512 }
{
    let sup = bank::supervisor(f.sr);
    let parts = reach::lent(sup, win, mem, rom);
    attempt(r, &parts, f)
}

// The same from the slots, which become the registers that it leaves.
fn begun<'a>(s: &mut [u32; SLOTS], win: Window, mem: &'a [u8], rom: &'a [u8]) -> Tried
    ensures result_after { record { r = s.new; t = result } ≡ begun (board_of win rom.now) s.old mem.now }
    ensures clocks_bound { result.clocks < 512 }
{
    let sr = s[codes::SR];
    let pc = s[codes::PC];
    bank::bank(s);
    lent_attempt(s, win, mem, rom, exception::fresh(pc, sr))
}

// One instruction. The slots before it are lent a second time, as they were.
fn instruction(
    s: &mut [u32; SLOTS],
    before: &[u32; SLOTS],
    win: Window,
    mem: &mut [u8],
    rom: &[u8],
    log: &mut [u64],
) -> Taken
    requires log_ok { LogOk mem.old log.old 0 × (70 ≤ length log.old) }
    requires before_value { before.now ≡ s.old }
    ensures s_after { s.new ≡ (instruction (board_of win rom.now) s.old mem.old).s }
    ensures mem_after { mem.new ≡ (instruction (board_of win rom.now) s.old mem.old).m }
    ensures event_value { result.event ≡ (instruction (board_of win rom.now) s.old mem.old).event }
    ensures clocks_value { result.clocks ≡ instruction_clocks (board_of win rom.now) s.old mem.old }
    ensures noted { Noted mem.old log.old 0 70 mem.new log.new result.n }
{
    let t = begun(s, win, mem, rom);
    step::concluded(s, before, mem, log, t)
}

// An interrupt: the mask becomes its level.
fn interrupt(
    s: &mut [u32; SLOTS],
    mem: &mut [u8],
    log: &mut [u64],
    level: u32,
    vector: u32,
) -> Ended
    requires { LogOk mem.old log.old 0 × (6 ≤ length log.old) }
    ensures s_after { s.new ≡ (interrupt s.old mem.old level vector).s }
    ensures mem_after { mem.new ≡ (interrupt s.old mem.old level vector).m }
    ensures event_value { result.event ≡ (interrupt s.old mem.old level vector).event }
    ensures noted { Noted mem.old log.old 0 6 mem.new log.new result.n }
{
    let sr = interrupt_sr(s[codes::SR], level);
    exception::exception(s, mem, log, 0, vector, sr)
}

fn interrupt_sr(sr: u32, level: u32) -> u32
    ensures { result ≡ interrupt_sr sr level }
{
    codes::SUPERVISOR + level % 8 * codes::MASK + sr % codes::MASK
}

// The clocks of an interrupt, none if it halts.
fn interrupt_clocks(event: u32) -> u32
    ensures { result ≡ interrupt_clocks event }
{
    let halted = event == codes::HALT_EVENT;
    if halted {
        return 0;
    }
    clocks::INTERRUPT_LINE
}

// One whole step with its request, the slots before it lent a second time: an interrupt that is taken, or nothing where the machine is
// stopped, or one instruction.
pub fn one_step(
    s: &mut [u32; SLOTS],
    before: &[u32; SLOTS],
    win: Window,
    mem: &mut [u8],
    rom: &[u8],
    log: &mut [u64],
    level: u32,
    vector: u32,
) -> Taken
    requires log_ok { LogOk mem.old log.old 0 × (70 ≤ length log.old) }
    requires before_value { before.now ≡ s.old }
    ensures s_after { s.new ≡ (one_step (board_of win rom.now) s.old mem.old level vector).s }
    ensures mem_after { mem.new ≡ (one_step (board_of win rom.now) s.old mem.old level vector).m }
    ensures event_value { result.event ≡ (one_step (board_of win rom.now) s.old mem.old level vector).event }
    ensures noted { Noted mem.old log.old 0 70 mem.new log.new result.n }
    ensures clocks_value { result.clocks ≡ step_clocks (board_of win rom.now) s.old mem.old level vector }
{
    let mask = s[codes::SR] / codes::MASK % 8;
    let taken = (level == codes::TOP_LEVEL) | (mask < level);
    if taken {
        let e = interrupt(s, mem, log, level, vector);
        return Taken {
            n: e.n,
            event: e.event,
            clocks: interrupt_clocks(e.event),
        };
    }
    let running = s[codes::MODE] == codes::RUNNING;
    if running {
        return instruction(s, before, win, mem, rom, log);
    }
    Taken {
        n: 0,
        event: codes::NO_EVENT,
        clocks: clocks::STOPPED_CLOCKS,
    }
}
