// The book of document 01, lists of calls, and the premises: only definitions, in specs/.
#![tactic(auto)]
