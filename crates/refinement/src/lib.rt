// Every call of the engine is a lawful block of events of the protocol. Proofs only: no code runs from here.
#![tactic(auto)]
