// The closed runs and cases of protocol's specs, all of them, by computation: there is no code here.
// Those that wrong definitions are refused by are in protocol's own proofs too.
#![tactic(auto)]
