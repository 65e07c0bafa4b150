// Each appointment takes the highest slot its pair has left, as a definition and its laws, without code (specs/Slots.antt). The code stands in the
// crates `slot_chains` and `slots`.
#![tactic(auto)]
