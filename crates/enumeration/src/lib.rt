// All orders of a list of events, one after another: definitions in specs/, their laws in proofs/, no code.
#![tactic(auto)]
