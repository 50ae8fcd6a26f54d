// The starred edges, and a history with a step of each kind: both are computed. There is no code here; specs/Edges.antt is the table to read.
#![tactic(auto)]
