// The paper's plain table, in specs/. No functions.
#![tactic(auto)]
