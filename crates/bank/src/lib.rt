// lib.rt - the bank of registers that an instruction sees, out of the twenty slots, and the slots after the instruction.
// Means: specs/Bank.antt.  Laws: proofs/BankLaws.antt.
// Uses: codes, bits, flags, bus, plan.  Source: [003 2.13.1], [003 4.2], [01 State], [01 step 5], [01 Easy slips].
#![tactic(auto)]

ghost use Rattle.std.specs.Prelude.{◌≡◌, ◌*◌, ◌%◌, ◌/◌};
ghost use Rattle.bank.specs.Bank.{supervisor, tracing, bank, mode_after, slots_of, settle};

use codes::SLOTS;
use plan::Plan;

pub fn supervisor(sr: u32) -> bool
    ensures { result ≡ supervisor sr }
{
    sr / codes::SUPERVISOR % 2 == 1
}

pub fn tracing(sr: u32) -> bool
    ensures { result ≡ tracing sr }
{
    sr / codes::TRACE % 2 == 1
}

// D0 to D7, A0 to A6, the active stack pointer as A7, and USP beside it in supervisor state: put in their order where the slots stand, so
// that no step copies them; what stays where it is costs nothing once compiled. No instruction reaches the three slots behind them.
#[tactic(auto, unfolding(crate::specs::Bank::bank))]
pub fn bank(s: &mut [u32; SLOTS])
    ensures { s.new ≡ bank s.old }
{
    let sup = supervisor(s[codes::SR]);
    let usp = s[codes::USP];
    let ssp = s[codes::SSP];
    if sup {
        let r = [
            s[0],
            s[1],
            s[2],
            s[3],
            s[4],
            s[5],
            s[6],
            s[7],
            s[8],
            s[9],
            s[10],
            s[11],
            s[12],
            s[13],
            s[14],
            ssp,
            usp,
            s[codes::PC],
            s[codes::SR],
            s[codes::MODE],
        ];
        *s = r;
        return;
    }
    let r = [
        s[0],
        s[1],
        s[2],
        s[3],
        s[4],
        s[5],
        s[6],
        s[7],
        s[8],
        s[9],
        s[10],
        s[11],
        s[12],
        s[13],
        s[14],
        usp,
        0,
        s[codes::PC],
        s[codes::SR],
        s[codes::MODE],
    ];
    *s = r;
}

// The mode after an instruction: 1 after a STOP in supervisor state that is not traced, else 0.
#[tactic(auto, unfolding(crate::specs::Bank::mode_after))]
fn mode_after(sr: u32, vec: u32) -> u32
    ensures { result ≡ mode_after sr vec }
{
    let stop = vec == codes::STOP_CODE;
    let sup = supervisor(sr);
    let trace = tracing(sr);
    bits::bit(stop & sup & !trace)
}

// Twenty slots. Each value is a number of 32 bits by its type, which is what `long` says.
fn slots_of(
    d0: u32,
    d1: u32,
    d2: u32,
    d3: u32,
    d4: u32,
    d5: u32,
    d6: u32,
    d7: u32,
    a0: u32,
    a1: u32,
    a2: u32,
    a3: u32,
    a4: u32,
    a5: u32,
    a6: u32,
    usp: u32,
    ssp: u32,
    pc: u32,
    sr: u32,
    mode: u32,
) -> [u32; SLOTS]
    ensures { result ≡ slots_of d0 d1 d2 d3 d4 d5 d6 d7 a0 a1 a2 a3 a4 a5 a6 usp ssp pc sr mode }
{
    [
        d0, d1, d2, d3, d4, d5, d6, d7, a0, a1, a2, a3, a4, a5, a6, usp, ssp, pc, sr, mode,
    ]
}

// The slots after an instruction that met no fault: r has the registers, and then the slots; s the slots before it. A7 goes back to the
// pointer that was active at the start; in user state SSP stays, and of SR only the flags change.
#[tactic(auto, unfolding(crate::specs::Bank::settle, crate::specs::Bank::usp_after, crate::specs::Bank::ssp_after, crate::specs::Bank::sr_after))]
pub fn settle(r: &mut [u32; SLOTS], s: &[u32; SLOTS], p: Plan)
    ensures { r.new ≡ settle s.now r.old p }
{
    let f = p.flow;
    let old = s[codes::SR];
    let mode = mode_after(old, p.vector);
    let sup = supervisor(old);
    if sup {
        let n = slots_of(
            r[0],
            r[1],
            r[2],
            r[3],
            r[4],
            r[5],
            r[6],
            r[7],
            r[8],
            r[9],
            r[10],
            r[11],
            r[12],
            r[13],
            r[14],
            r[16],
            r[15],
            f.pc,
            flags::sr_bits(f.sr),
            mode,
        );
        *r = n;
        return;
    }
    let n = slots_of(
        r[0],
        r[1],
        r[2],
        r[3],
        r[4],
        r[5],
        r[6],
        r[7],
        r[8],
        r[9],
        r[10],
        r[11],
        r[12],
        r[13],
        r[14],
        r[15],
        s[codes::SSP],
        f.pc,
        flags::with_ccr(old, f.sr),
        mode,
    );
    *r = n;
}
