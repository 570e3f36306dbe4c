// lib.rt - the steps of a run that has found its journal full: where room is short the fewest oldest records are dropped. All records are
// read once, at the start, and then again only when they are about to be dropped; and the journal is turned instead of moved.
// Means: running of the crate calls at Dropping; specs/Full.antt.  Laws: proofs/MadeLaws.antt, proofs/FullLaws.antt.
// Uses: codes, bus, record, oldest, turned, starts, held, step, calls, taken.  Source: [K5], [K7], [K10].
#![tactic(auto)]

ghost use Rattle.std.specs.Prelude.{◌≡◌, true, false, ◌+◌, ◌-◌, ◌*◌, ◌≤◌, ◌<◌, ◌^◌, length, eqb};
ghost use Rattle.bus.specs.Bus.{board_of};
ghost use Rattle.codes.specs.Codes.{MostSteps};
ghost use Rattle.bank.specs.Bank.{mode_of};
ghost use Rattle.record.specs.Limits.{byte_limit, longest_record};
ghost use Rattle.step.specs.Steps.{most_clocks};
ghost use Rattle.turned.specs.Turned.{turned};
ghost use Rattle.starts.specs.Starts.{Known};
ghost use Rattle.held.specs.Held.{Turn};
ghost use Rattle.calls.specs.declared.Manner.TheVariants.{Dropping};
ghost use Rattle.calls.specs.Calls.{memory_fits, state_fits, running};
ghost use Rattle.full.specs.Full.{MadeIs};

use bus::Window;
use calls::RunAnswer;
use codes::SLOTS;
use record::limits::LONGEST_RECORD;
use starts::{NEAR, POSTS};

// Of a full journal what may be turned: all but its last bytes, two of the longest records, which a step writes to or moves.
const UNTURNED: usize = 2 * LONGEST_RECORD;

// The mark, the bytes moved and the records dropped where room is there or was made; and what is known of the journal then.
#[derive(Clone, Copy)]
struct Made {
    mark: usize,
    moved: usize,
    dropped: usize,
    b: usize,
    i: usize,
    base: usize,
}

// Room for one more record, in a journal all of whose records are known to be well shaped.
fn room_known(
    journal: &mut [u8],
    mark: usize,
    len: usize,
    b: usize,
    h: usize,
    base: usize,
    spread: usize,
    posts: &[usize],
    near: &mut [usize],
    i: usize,
) -> Made
    requires mark_in_bounds { (mark ≤ length journal.old) × (h ≤ length journal.old) × (len ≤ 2 ^ 32) × (base + mark < 2 ^ 64) × Turn b h mark }
    requires longest_record_in_bounds { (longest_record ≤ length journal.old) × (0 < spread) × (0 < length posts.now) × (0 < length near.old) × Known len (turned b h journal.old) mark posts.now near.old i base }
    ensures { MadeIs len (turned b h journal.old) mark h base journal.new posts.now near.new result }
{
    let short = journal.len() - mark < LONGEST_RECORD;
    if short {
        let r = held::room_held(journal, mark, len, b, h, base, spread, posts, near, i);
        return Made {
            mark: r.mark,
            moved: r.mark,
            dropped: r.dropped,
            b: r.b,
            i: r.i,
            base: r.base,
        };
    }
    Made {
        mark,
        moved: 0,
        dropped: 0,
        b,
        i,
        base,
    }
}

// The steps from here on, with n of them and c clocks done: it ends at the first reason that holds. Reasons 4 and 6 are not asked again,
// since the journal is long enough and all its records are well shaped.
fn running_known(
    slots: &mut [u32; SLOTS],
    win: Window,
    memory: &mut [u8],
    rom: &[u8],
    budget: u32,
    stop: u32,
    journal: &mut [u8],
    mark: usize,
    done: u32,
    clocks: u32,
    log: &mut [u64],
    h: usize,
    spread: usize,
    posts: &mut [usize],
    near: &mut [usize],
) -> RunAnswer
    requires memory_value { (memory_fits memory.old ≡ true) × (mark ≤ length journal.old) × (byte_limit ≤ length log.old) × (state_fits slots.old ≡ true) × (longest_record ≤ length journal.old) }
    requires budget_bound { (budget ≤ MostSteps) × (done ≤ budget) × (clocks ≤ most_clocks * done) }
    requires h_in_bounds { (h ≤ length journal.old) × (0 < spread) × (0 < length posts.old) × (0 < length near.old) × Known (length memory.old) journal.old mark posts.old near.old (length near.old) 0 }
    ensures slots_after { slots.new ≡ (running Dropping (board_of win rom.now) (budget - done) done clocks 0 0 stop slots.old memory.old journal.old mark).s }
    ensures memory_after { memory.new ≡ (running Dropping (board_of win rom.now) (budget - done) done clocks 0 0 stop slots.old memory.old journal.old mark).m }
    ensures journal_after { journal.new ≡ (running Dropping (board_of win rom.now) (budget - done) done clocks 0 0 stop slots.old memory.old journal.old mark).j }
    ensures value { result ≡ (running Dropping (board_of win rom.now) (budget - done) done clocks 0 0 stop slots.old memory.old journal.old mark).a }
{
    let size = taken::twenty(slots);
    let long = taken::bytes(memory);
    let len = memory.len();
    let mut n = done;
    let mut c = clocks;
    let mut m = mark;
    let mut b: usize = 0;
    let mut i = near.len();
    let mut base: usize = 0;
    let mut moved: u64 = 0;
    let mut dropped: u64 = 0;
    let reason = loop {
        let spent = budget <= n;
        if spent {
            break 1;
        }
        let halted = slots[codes::MODE] == codes::HALTED;
        if halted {
            break 2;
        }
        let stopped = slots[codes::MODE] == codes::STOPPED;
        if stopped {
            break 3;
        }
        let there = slots[codes::PC] == stop;
        if there {
            break 5;
        }
        let r = room_known(journal, m, len, b, h, base, spread, posts, near, i);
        starts::posts::note_post(posts, spread, r.base + r.mark);
        let a = taken::step_taken(slots, win, memory, rom, 0, 0, journal, r.mark, log);
        m = a.mark;
        b = r.b;
        i = r.i;
        base = r.base;
        n += 1;
        c += a.clocks;
        moved = oldest::add_moved(moved, r.moved as u64);
        dropped += r.dropped as u64;
    };
    turned::turn_back(journal, b, h);
    RunAnswer {
        number: 0,
        reason,
        mark: m,
        steps: n,
        clocks: c,
        moved,
        dropped,
    }
}

// Of a journal of so many bytes, how many may be turned.
fn turnable(size: usize) -> usize
    ensures { result ≤ size }
{
    if size < UNTURNED {
        return 0;
    }
    size - UNTURNED
}

// What is left of a run that has found room short, done steps of so many clocks before it: the way back is judged, and it goes on.
pub fn running_full(
    slots: &mut [u32; SLOTS],
    win: Window,
    memory: &mut [u8],
    rom: &[u8],
    budget: u32,
    stop: u32,
    journal: &mut [u8],
    mark: usize,
    done: u32,
    clocks: u32,
    log: &mut [u64],
) -> RunAnswer
    requires memory_value { (memory_fits memory.old ≡ true) × (mark ≤ length journal.old) × (byte_limit ≤ length log.old) × (state_fits slots.old ≡ true) × (longest_record ≤ length journal.old) }
    requires budget_bound { (budget ≤ MostSteps) × (clocks ≤ most_clocks * done) }
    requires done_lt_budget { (done < budget) × (eqb (mode_of slots.old) 2 ≡ false) × (eqb (mode_of slots.old) 1 ≡ false) × (length journal.old - mark < longest_record) }
    ensures slots_after { slots.new ≡ (running Dropping (board_of win rom.now) (budget - done) done clocks 0 0 stop slots.old memory.old journal.old mark).s }
    ensures memory_after { memory.new ≡ (running Dropping (board_of win rom.now) (budget - done) done clocks 0 0 stop slots.old memory.old journal.old mark).m }
    ensures journal_after { journal.new ≡ (running Dropping (board_of win rom.now) (budget - done) done clocks 0 0 stop slots.old memory.old journal.old mark).j }
    ensures value { result ≡ (running Dropping (board_of win rom.now) (budget - done) done clocks 0 0 stop slots.old memory.old journal.old mark).a }
{
    let len = memory.len();
    // The longest record more than needed for so many posts, so that hardly an entry is without a start.
    let spread = journal.len() / POSTS + LONGEST_RECORD;
    let mut posts = [0usize; POSTS];
    let whole = starts::posts::note_posts(journal, mark, len, spread, &mut posts);
    if whole {
        let mut near = [0usize; NEAR];
        let h = turnable(journal.len());
        return running_known(
            slots, win, memory, rom, budget, stop, journal, mark, done, clocks, log, h, spread,
            &mut posts, &mut near,
        );
    }
    RunAnswer {
        number: 0,
        reason: 6,
        mark,
        steps: done,
        clocks,
        moved: 0,
        dropped: 0,
    }
}
