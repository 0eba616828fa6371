// The theorems of claims and pairs in whole closed runs: there is no code here.
#![tactic(auto)]
