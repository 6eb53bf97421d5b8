// Lists by place: only definitions and laws, in specs/.
#![tactic(auto)]
