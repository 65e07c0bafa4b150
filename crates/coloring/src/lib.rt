// The colouring of a regular graph as definitions and laws, without code: specs/EdgeColor.antt says what `rbmg_edge_color`, modules 6
// and 7 of document 01, gives, and specs/Coloring.antt what that is. The code that gives it stands in the crate `edge_color`.
#![tactic(auto)]
