// Lists of calls worked out: document 01's cases, its edges and readings, and witnesses of the order
// theorem, in specs/.
#![tactic(auto)]
