// No code: proofs/Table.antt is the table of the worked shows.
#![tactic(auto)]
