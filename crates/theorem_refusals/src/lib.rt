// Refusals of the calls that are not writing calls, and of unknown type bytes by all: theorems over their definitions. There is no code here; specs/Refusals.antt and specs/UnknownType.antt are the statements to read.
#![tactic(auto)]
