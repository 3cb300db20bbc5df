// Computed histories that show what a statement of demands rules out. No code.
#![tactic(auto)]
