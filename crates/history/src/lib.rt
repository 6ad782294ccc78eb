// Whole call lists: what a draw gives after a list of calls, by the logs of the list alone. The statement is specs/Demand3.antt, the proof proofs/Demand3.antt.
#![tactic(auto)]
