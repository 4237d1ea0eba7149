// No code: lists by their words and by rows, and what loops that write them need, in specs/.
#![tactic(auto)]
