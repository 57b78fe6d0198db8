// Lists of calls beside the promises, computed.
#![tactic(auto)]
