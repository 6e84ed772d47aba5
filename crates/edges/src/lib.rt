// The claims about every list of calls, computed on runs that come close to their edges: a table, in specs/Claims.antt, and one proof of it. No function.
#![tactic(auto)]
