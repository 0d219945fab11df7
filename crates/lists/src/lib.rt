// Definitions and laws on lists, in specs/, that the other crates share. No functions.
#![tactic(auto)]
