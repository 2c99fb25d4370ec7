// What each task writes, as definitions and laws; in code, the two halves of a slot.
#![tactic(auto)]

// The half of a slot that has the strips of collect, and the half that has the linked ones.
#[derive(Clone, Copy)]
pub enum Half {
    Lone,
    Linked,
}
