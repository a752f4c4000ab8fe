// No code: what a state-list text means, 01 "The text" and refusals 1 to 8, whatever reads it. The definitions are in specs/, what follows
// from them in proofs/.
#![tactic(auto)]
