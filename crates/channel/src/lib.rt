// Histories of one headend and its stations: demand 3, stated in specs/ and proved in proofs/. There is no code.
#![tactic(auto)]
