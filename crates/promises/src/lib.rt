// No code: proofs/Promises.antt is the page from which every promise can be read with its type.
#![tactic(auto)]
