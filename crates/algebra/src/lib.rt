// No code: definitions and laws over any commutative ring or field, in specs/.
#![tactic(auto)]
