// main.rt - prints the kinds of all 65,536 operation words as runs of equal names, a line to a run: first word, last word, name.
// Means: nothing; its stored output is made from a list of names that is not ours, and shows no difference.
// Uses: decode, kind_table.  Source: [003 B], the names' parts; [K9].
#![tactic(auto)]

mod names;

use names::Name;
use std::io;

// The names are told by the table; a line more says where the chain of tests tells another kind.
fn main(rt: HostRuntime) -> io::Result<()> {
    let mut first = 0;
    for op in 0..65536u32 {
        if decode::kind_of(op) != kind_table::kind_of(op) {
            println!(rt; "the chain differs at {op:04x}")?;
        }
        let name = Name::of(op);
        if op == 65535 || Name::of(op + 1) != name {
            println!(rt; "{first:04x}-{op:04x} {name}")?;
            first = op + 1;
        }
    }
    Ok(())
}
