// Steps of manual proofs over MIR, in proofs/, for functions that are proved by hand. No functions.
#![tactic(auto)]
