// Three laws of the definition, by the one walk over operators and steps (crates/walk): its log only grows (proofs/StepGrowth), its store loses no object
// (StepStore, RunStore), and its names are short, so that its outcome fits (OutcomeFits). Nothing runs here.
#![tactic(auto)]
