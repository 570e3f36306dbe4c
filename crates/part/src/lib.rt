// lib.rt - the very part of memory or of ROM that holds an address and a length, for the fault page. The call has no `requires`.
// Means: specs/Part.antt.  Laws: proofs/PartLaws.antt.
// Uses: codes, refusals, calls, answers.  Source: [K10], [01 The shape of each place].
#![tactic(auto)]

ghost use Rattle.std.specs.Prelude.{◌+◌, ◌≤◌, ◌≡◌, length};
ghost use Rattle.part.specs.Part.{lies, where_is, PartOf, Found, PartPromise};

use refusals::Refusal;

// Whether so many bytes from a place on lie within n. The sum is not formed: it may not fit.
fn lies(n: u64, place: u64, many: u64) -> bool
    ensures { result ≡ lies n place many }
{
    place <= n && many <= n - place
}

// A part that lies within a slice.
fn part_of(s: &[u8], place: u64, many: u64) -> &[u8]
    requires { place + many ≤ length s.now }
    ensures { PartOf s.entry place many result }
{
    let from = place as usize;
    let to = (place + many) as usize;
    &s[from..to]
}

// The part of memory or of ROM that holds so many bytes from an address on, which is not cut to 24 bits; memory is tried first. It is refused
// by 1, 12, or 13 where the part fits neither.
fn find<'a>(memory: &'a [u8], rom: &'a [u8], address: u64, many: u64) -> Result<&'a [u8], Refusal>
    ensures { Found (where_is memory.now rom.now address many) memory.entry rom.entry many result }
{
    answers::judge_reset(memory, rom)?;
    if lies(memory.len() as u64, address, many) {
        return Ok(part_of(memory, address, many));
    }
    let start = codes::ROM_START as u64;
    if start <= address && lies(rom.len() as u64, address - start, many) {
        return Ok(part_of(rom, address - start, many));
    }
    Err(Refusal::NoPart)
}

// The part, and in `number` 0 or the number of the refusal. It gives no Result: a refused part is promised too (PartPromise), as C gets one.
// It is empty, at memory's start.
pub fn part<'a, 'b>(
    memory: &'a [u8],
    rom: &'a [u8],
    address: u64,
    many: u64,
    number: &'b mut u32,
) -> &'a [u8]
    ensures { PartPromise memory.entry rom.entry address many number.new result }
{
    match find(memory, rom, address, many) {
        Ok(found) => {
            *number = 0;
            found
        }
        Err(refusal) => {
            *number = u32::from(refusal);
            part_of(memory, 0, 0)
        }
    }
}
