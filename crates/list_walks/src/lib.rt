// Functions that read and rewrite lent lists, as shapes: a shape is proved once, for every function
// that has it. And lemmas for the turns of their loops.
#![tactic(auto)]
