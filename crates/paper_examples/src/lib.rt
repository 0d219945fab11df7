// The paper's twelve examples, in specs/, proved in proofs/Laws. No functions.
#![tactic(auto)]
