// No code: laws for proofs that walk a function's MIR by hand, in proofs/. They say nothing of what a function is for, and no function of these
// crates needs such a proof today.

#![tactic(auto)]
