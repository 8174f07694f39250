// What a machine's words show of its objects, step by step, against what the definition holds. Nothing runs here; specs/ has the claim, proofs/ its laws.
#![tactic(auto)]
