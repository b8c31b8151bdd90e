// The starred bench trials of document 01 as one table in specs/, and the theorem that each row is so in proofs/, no code.
#![tactic(auto)]
