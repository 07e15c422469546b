// Demand 3: a logic whose graph gives no finding is safe. No code.
#![tactic(auto)]
