// No code: what holds of the machine of 01, whatever runs it. The definitions are in specs/, the theorems in proofs/, the demands in
// proofs/Demands.antt.
#![tactic(auto)]
