// Theorems about the public calls' promises, in the words of the demands. No code.
#![tactic(auto)]
