// The claims of demand 3, over the history and the definitions that the contracts of desk, host and console cite, and the one that joins them over an
// honest server's list. There is no code here: the statements stand in specs/, the proof of each in proofs/Laws; lists for them are worked out in
// `worked_lists`.

#![tactic(auto)]
