// That the number which a run keeps of the save (`newest`) is the one which the history gives it; the crate has no code of its own.
#![tactic(auto)]
