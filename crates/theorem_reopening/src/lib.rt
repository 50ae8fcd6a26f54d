// Laws of the reading and of what opening leaves: opened twice, cut and opened again, opened after a closed front. It has no code: theorem_power_cut rests on it.
#![tactic(auto)]
