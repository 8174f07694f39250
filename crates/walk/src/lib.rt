// One walk over operators, tokens, steps and runs of the definition: what is asked of the parts of a machine, and of a machine as a whole, is kept by every step
// if it is kept by the changes that steps are made of. Nothing runs here. A property is a value of `Property` (proofs/Property); its instances are in the crates above.
#![tactic(auto)]
