// The transaction protocol as a list of events, and its laws. Proofs only: no code runs from here.
#![tactic(auto)]
