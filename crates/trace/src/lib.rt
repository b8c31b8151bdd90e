// The mathematics of event orders: definitions in specs/, their laws in proofs/, no code.
#![tactic(auto)]
