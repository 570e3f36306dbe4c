// lib.rt - no code: the crate holds 003's condition-code rows and formulas against the definitions of the arithmetic.
// Means: specs/Marks.antt, specs/Rows.antt, specs/Formulas.antt.  Theorems: flags_obey_rows of proofs/RowsLaws.antt, those of proofs/FormulaLaws.antt.
// Uses: bits, flags, alu, decimal, multiply_divide, shift.  Source: [003 A-1], [003 B], [01 Arithmetic].
#![tactic(auto)]
