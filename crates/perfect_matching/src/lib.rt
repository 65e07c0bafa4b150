// A perfect matching of a regular graph as definitions and laws, without code: specs/Matching.antt says what
// `rbmg_find_perfect_matching`, module 5 of document 01, gives, and specs/Perfect.antt what that is. The code that gives it stands in
// the crate `matching`.
#![tactic(auto)]
