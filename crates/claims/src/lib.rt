// Theorems about every run, over the definitions of protocol: there is no code here.
// What is claimed beside demand 3 is in specs/, the proofs are in proofs/.
#![tactic(auto)]
