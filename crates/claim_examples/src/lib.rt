// No code: the twelve examples of docs/RULES.md in one table, and one claim over it.
#![tactic(auto)]
