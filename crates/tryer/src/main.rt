// main.rt - what a moderator runs on a stranger's pattern: it is tried in its window, what it did is told, and all is taken back.
// Means: nothing; proved safe. What a try and taking it back are stands in specs/Tries.antt of the crate tries.
// Uses: codes, bus, machine, tries, compare, console.  Source: [K7], [K10].
//
//     ./run tryer LO HI STEPS PC STACK ROM < IMAGE
//
// The image, up to 65,536 bytes, stands at address 0 of a memory of 65,536 bytes. After a reset by it the pattern starts in user state, with
// registers of 0: in the window from LO to below HI (0 and 10000), for at most STEPS steps (100000), at PC (the reset's), with STACK as its
// stack pointer (HI, or 10000 if that is lower), beside the ROM that the file ROM has (none). LO, HI, PC and STACK are in base 16 with nothing
// before the digits, STEPS is in base 10. Words may be left out from the last on, and a dash stands for what is in parentheses. Where the image
// has 0 for SSP it is memory's end, so that an exception finds room for its frame. The journal has 4 MiB: some 400,000 ordinary steps.
#![tactic(auto)]

mod changes;
mod ending;
mod names;
mod rom;
mod words;

use bus::Window;
use changes::Bounds;
use codes::{ROM_START, SLOTS};
use console::{Counted, arguments, read_at_most};
use ending::Frame;
use names::Refusal;
use std::io;
use tries::{BackAnswer, TryAnswer};
use words::{Asked, MEMORY};

const JOURNAL: usize = 4194304;

// Slots and memory, as they are at one time.
#[derive(Drop)]
struct State {
    slots: [u32; SLOTS],
    memory: Vec<u8>,
}

// The start of a pattern, after a reset: user state, and no flags.
fn set_user(slots: &mut [u32; SLOTS], asked: &Asked) {
    if slots[codes::SSP] == 0 {
        slots[codes::SSP] = MEMORY;
    }
    if let Some(pc) = asked.pc {
        slots[codes::PC] = pc;
    }
    slots[codes::USP] = asked.stack;
    slots[codes::SR] = 0;
}

// What is tried: the image's length; the ROM, if there is one, with its first and last place; the window, the start and the steps.
fn tell_asked(
    rt: &impl Print,
    n: usize,
    asked: &Asked,
    slots: &[u32; SLOTS],
    rom: &[u8],
) -> io::Result<()> {
    println!(rt; "image: {}", Counted(n as u64, "byte"))?;
    if !rom.is_empty() {
        let last = (ROM_START as usize).saturating_add(rom.len() - 1);
        println!(rt;
            "ROM: {}, {ROM_START:06x} to {last:06x}",
            Counted(rom.len() as u64, "byte")
        )?;
    }
    println!(rt;
        "tried: window {:06x} to below {:06x}, start {:06x}, user stack {:06x}, at most {}",
        asked.win.lo,
        asked.win.hi,
        slots[codes::PC],
        slots[codes::USP],
        Counted(u64::from(asked.steps), "step")
    )
}

// Tells the result of a try, and what it changed.
fn tell_tried(
    rt: &(impl Print + AllocGlobal),
    t: TryAnswer,
    win: Window,
    before: &State,
    after: &State,
) -> io::Result<()> {
    let frame = Frame::of(t, &after.slots);
    let (old, new) = (before.memory.as_slice(), after.memory.as_slice());
    ending::tell(rt, t, frame, &after.slots, new)?;
    changes::tell_slots(rt, &before.slots, &after.slots)?;
    changes::tell_memory(rt, old, new, Bounds { win, frame })
}

// How much was taken back.
fn tell_back(rt: &impl Print, t: TryAnswer, b: BackAnswer) -> io::Result<()> {
    print!(rt;
        "taken back: {} of {}",
        b.undone,
        Counted(u64::from(t.steps), "step")
    )?;
    if b.number != 0 {
        print!(rt; ", then refusal {}: {}", b.number, Refusal(b.number))?;
    }
    rt.println("")
}

fn verdict(same: bool) -> &'static str {
    if same { "the same" } else { "NOT THE SAME" }
}

// What is there now beside what was there before the try, where the window was old.
fn tell_compared(
    rt: &impl Print,
    b: BackAnswer,
    old: Window,
    before: &State,
    after: &State,
) -> io::Result<()> {
    let slots = compare::same_slots(&before.slots, &after.slots);
    let memory = compare::same(before.memory.as_slice(), after.memory.as_slice());
    let mark = b.mark == 0;
    let window = b.lo == old.lo && b.hi == old.hi;
    println!(rt;
        "compared with before: registers {}, memory {}, mark {}, window {}",
        verdict(slots),
        verdict(memory),
        verdict(mark),
        verdict(window)
    )?;
    rt.println(if slots && memory && mark && window {
        "ALL WAS TAKEN BACK"
    } else {
        "NOT ALL WAS TAKEN BACK"
    })
}

// Resets by an image, of which the first n bytes were read, sets the start, tries, tells what that did, takes it back and compares.
fn try_image(
    rt: &(impl Print + AllocGlobal),
    n: usize,
    asked: &Asked,
    image: Vec<u8>,
    rom: &[u8],
) -> io::Result<()> {
    let mut slots = [0; SLOTS];
    let reset = machine::reset(&mut slots, image.as_slice(), rom);
    set_user(&mut slots, asked);
    // What is lent comes first: where there is no memory for it nothing is told.
    let mut journal = vec![in rt.alloc(); 0; JOURNAL]?;
    let mut now = State {
        slots,
        memory: Vec::from_slice(rt.alloc(), image.as_slice())?,
    };
    tell_asked(rt, n, asked, &slots, rom)?;

    let before = State {
        slots,
        memory: image,
    };
    let t = tries::try_pattern(
        &mut now.slots,
        asked.win,
        now.memory.as_mut_slice(),
        rom,
        asked.steps,
        journal.as_mut_slice(),
        0,
    );
    tell_tried(rt, t, asked.win, &before, &now)?;

    let old = Window {
        lo: reset.lo,
        hi: reset.hi,
    };
    let b = tries::take_back(
        &mut now.slots,
        asked.win,
        now.memory.as_mut_slice(),
        rom,
        journal.as_slice(),
        t.mark,
        t.steps,
        old,
    );
    tell_back(rt, t, b)?;
    tell_compared(rt, b, old, &before, &now)
}

fn main(rt: HostRuntime) -> io::Result<()> {
    let words = arguments(&rt)?;
    let Some(asked) = Asked::of(words.as_slice()) else {
        return rt.eprintln(
            "usage: ./run tryer [LO HI STEPS PC STACK ROM] < IMAGE; STEPS is in base 10, ROM a file, the others in base 16, - is the default",
        );
    };
    let Some(mut image) = read_at_most(&rt, &mut rt.reader(), MEMORY as usize)? else {
        return eprintln!(rt; "tryer: the image has more than {MEMORY} bytes");
    };
    let n = image.len();
    image.resize(MEMORY as usize, 0)?;
    match rom::read(&rt, asked.rom)? {
        Some(rom) => try_image(&rt, n, &asked, image, rom.as_slice()),
        None => Ok(()),
    }
}
