// Calls made one after another by the library's own functions are a history. No code: definitions and theorems.
#![tactic(auto)]
