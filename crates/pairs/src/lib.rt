// Two runs that differ in the amounts of workshop sends, over the definitions of protocol: there is no code here.
#![tactic(auto)]
