//! The text format as a table of rules: what each row reads, and what it leaves in the model. Definitions and laws, no code.
//!
//! A rule is a grammar of `wast_grammar` that says what it leaves. `specs/Rule` has the formers and `reads`, the row that a rule reads; `specs/Makes`
//! says what a rule leaves of a value that its row reads, as loose parts (`specs/Made`): rows, leaves, entries, ids, labels, inline exports, offsets
//! and definitions, of which each `wraps` takes those that its part left and puts one thing in their place. The table is
//! `specs/ValueRules`, `ReferenceRules`, `CoreTypeRules`, `TypeRules`, `InstanceRules`, `CanonRules` and `FieldRules`, and `specs/Table` has the rule
//! of each row that stands by a name.
//!
//! Whatever a text spells, what the rules make of it has the shape of the model's rows. `specs/Sorts` is what a rule leaves as far as it hangs on no
//! text, `specs/Tests` computes it of each rule, and `laws` says that it is so.
#![tactic(auto)]

pub mod laws;
