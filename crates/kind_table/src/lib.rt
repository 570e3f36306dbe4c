// lib.rt - the kind of an operation word by a table of 1,024 entries, chosen by the word divided by 64. Beside it stands decode's chain of tests.
// Means: specs/Table.antt, specs/Ways.antt; kind_of of decode.  Laws: proofs/TableLaws.antt.
// Uses: decode, table, ways.  Source: [K9].
#![tactic(auto)]

ghost use Rattle.std.specs.Prelude.{◌≡◌};
ghost use Rattle.decode.specs.Rows.{kind_of};

mod table;
mod ways;

// The kind of the operation word in op's low sixteen bits.
pub fn kind_of(op: u32) -> u32
    ensures { result ≡ kind_of op }
{
    let word = op % 65536;
    ways::told(table::entry(word / 64), word)
}
