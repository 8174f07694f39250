// What an echo line tells us (02, W14). Nothing runs here. The theorems are in proofs/RunEchoes, and what they speak of in specs/Runs: any states of any runs.
// That echoed texts are read back is a law of the definition (EchoLaws of crates/semantics); the rest shows of every run what this rests on: its numbers and bytes
// are in range, and it is within what is lent, by the walk over operators and steps (crates/walk).
#![tactic(auto)]
