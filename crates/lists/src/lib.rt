// Lists, queues and blocks of bytes: definitions and their laws.
#![tactic(auto)]
