// Two runs side by side that differ in the sizes of stamps and in the clock alone. No function stands here.
#![tactic(auto)]
