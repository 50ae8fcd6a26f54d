// A record and its bytes give each other back: theorems over the encoding. There is no code here; specs/RoundTrip.antt is the statement to read.
#![tactic(auto)]
