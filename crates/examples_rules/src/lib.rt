// Worked examples of single rules, as theorems: specs/Rules.antt. No code.
#![tactic(auto)]
