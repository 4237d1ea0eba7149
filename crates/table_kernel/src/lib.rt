// No code: the meaning of the kernel call and of its check, and what holds of them, in specs/.
#![tactic(auto)]
