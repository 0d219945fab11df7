// What holds of tables that are put away as images and taken up again: definitions and laws, no functions.
#![tactic(auto)]
