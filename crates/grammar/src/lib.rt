// The grammar of a program.
#![tactic(auto)]
