// Definitions and laws alone: numbers in bytes, copies of bytes, choices, tests.
#![tactic(auto)]
