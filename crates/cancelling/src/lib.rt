// Cancelling can't lengthen a plan: a theorem of the planning call's definitions, without code of its own. specs/Cancelling.antt
// states it.
#![tactic(auto)]
