// No code: the definitions that every contract cites, and the theorems about them, in specs/.
#![tactic(auto)]
