//! What reading by the rules of `text_rules` comes to, as a reader of rules goes: former by former, behind what was made before.
//!
//! `specs/Run` has `run rule stand made`: what was made so far and where the reader stands, or a refusal. It is what the row of the rule comes
//! to, and what the rule makes of the value, put behind what was made before. `laws` has an equation for each former of rules in which no
//! value occurs any more: so a reader needs none. It may go by a rule, or be a function of its own for a row; both are said by `run`.
//! `proofs/Ranks` says that each part of a rule is below it, which is why a reader ends.
#![tactic(auto)]

pub mod laws;
