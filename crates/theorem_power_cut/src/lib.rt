// Demand 3: theorems over the definitions of the calls. There is no code here; specs/PowerCut.antt is the statement to read.
#![tactic(auto)]
