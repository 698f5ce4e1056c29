// The law over whole runs: what is on record of a run, what a reader can tell from that, and the law; with its proof from the
// laws of the protocol. Proofs only: no code runs from here.
#![tactic(auto)]
