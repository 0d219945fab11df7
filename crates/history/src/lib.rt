// Histories of calls, runs of queries, and the claims about them, in specs/. No functions.
#![tactic(auto)]
