// Laws: a sound table that is written reads back, but for its marks.
// Scope: Errors that invite (the EBR that stays after the only logical is removed), module 8. Rules: W.
// No code: `specs/RoundTrip.antt` is the statement.
#![tactic(auto)]
