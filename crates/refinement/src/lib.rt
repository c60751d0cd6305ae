// Each step of a box is steps of the model of the yard: the proofs that the promises rest on. No code of its own.
#![tactic(auto)]
