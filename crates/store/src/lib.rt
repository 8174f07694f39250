// What the heap's cells stand for: the objects of the definition. Nothing runs here; specs/ has the relation, proofs/ its laws.
#![tactic(auto)]

#[derive(Clone, Copy)]
pub enum Store {
    Laws,
}
