// No code: the exploration and what it is compared with are in specs/, its laws in proofs/.
#![tactic(auto)]
