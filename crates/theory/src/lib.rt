// No code: the laws of this crate stand in proofs/.
#![tactic(auto)]
