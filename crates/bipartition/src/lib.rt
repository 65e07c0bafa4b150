// The two sides of a list as definitions and laws, without code: specs/TwoColor.antt says what `two_color`, module 2 of document 01,
// gives, and specs/TwoSides.antt what its answers say of the list. The code that gives it stands in the crate `two_color`.
#![tactic(auto)]
