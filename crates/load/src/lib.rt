// What a group file says, the checks of a load and the group that it makes, and theorems about them: there is no code here.
// The functions that read a file are in reading, the one that makes the group in loading.
#![tactic(auto)]
