// lib.rt - four steps and four undos of a memory, each told in a line.
// Means: nothing; proved safe. The lines are those of 01's small program.
// Uses: codes, bus, keeping, machine.  Source: [01 Set down and proved].
#![tactic(auto)]

use bus::Window;
use codes::SLOTS;
use std::io;

// A machine, with the steps that stand and the mark.
#[derive(Drop)]
struct Standing<'a> {
    slots: [u32; SLOTS],
    win: Window,
    memory: &'a mut [u8],
    journal: [u8; 4096],
    steps: u32,
    mark: usize,
}

impl<'a> Standing<'a> {
    // After a reset.
    fn new(memory: &'a mut [u8]) -> Standing<'a> {
        let mut slots = [0; SLOTS];
        let answer = machine::reset(&mut slots, memory, &[]);
        Standing {
            slots,
            win: Window {
                lo: answer.lo,
                hi: answer.hi,
            },
            memory,
            journal: [0; 4096],
            steps: 0,
            mark: 0,
        }
    }

    // One that is refused does not stand.
    fn step(&mut self) {
        let answer = keeping::step_keeping(
            &mut self.slots,
            self.win,
            self.memory,
            &[],
            0,
            0,
            &mut self.journal,
            self.mark,
        );
        if answer.number == 0 {
            self.steps = self.steps.wrapping_add(1);
            self.mark = answer.mark;
        }
    }

    fn undo(&mut self) {
        let answer = machine::undo(
            &mut self.slots,
            self.win,
            self.memory,
            &[],
            &self.journal,
            self.mark,
        );
        if answer.number == 0 {
            self.steps = self.steps.wrapping_sub(1);
            self.mark = answer.mark;
        }
    }

    fn tell(&self, rt: &impl Print) -> io::Result<()> {
        let pc = self.slots[codes::PC];
        let sr = self.slots[codes::SR];
        println!(rt; "{} {pc:08X} {sr:04X} {}", self.steps, self.mark)
    }
}

// Resets, takes four steps and undoes four; a line after each.
pub fn nine_lines(rt: &impl Print, memory: &mut [u8; 65536]) -> io::Result<()> {
    let mut machine = Standing::new(memory);
    machine.tell(rt)?;
    for _ in 0..4 {
        machine.step();
        machine.tell(rt)?;
    }
    for _ in 0..4 {
        machine.undo();
        machine.tell(rt)?;
    }
    Ok(())
}
