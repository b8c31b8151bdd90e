// The order in which a match is replayed: its definition in specs/, its laws in proofs/, no code.
#![tactic(auto)]
