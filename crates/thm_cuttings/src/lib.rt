// Definitions and theorems alone: feeds cut otherwise.
#![tactic(auto)]
