// Promises of the writing calls: theorems over their definitions. There is no code here; specs/Promises.antt is the statement to read.
#![tactic(auto)]
