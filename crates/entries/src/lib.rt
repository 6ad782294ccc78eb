// The tie from the theorem of crate history to the functions of the crates gles_..: specs/Entries.antt. No code.
#![tactic(auto)]
