// The regular graph that a list is made into, as definitions and laws, without code: the pairs of the list, new parties on the shorter
// side, and copies until every party has degree D (specs/Evening.antt). The code stands in the crates `list_pairs` and `evening`.
#![tactic(auto)]
