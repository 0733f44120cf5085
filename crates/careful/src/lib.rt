// Careful changes as theory: the drive may be pulled at any moment.
// Scope: Careful changes (First-place rule, Careful push, Careful removal); demand 3. Rules: K, V.
// No code: `careful_push` and `careful_remove` promise these definitions; `specs/Demand3.antt` is the statement.
#![tactic(auto)]
