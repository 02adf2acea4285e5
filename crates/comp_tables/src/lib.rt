//! Resolving an expanded list with tables: the indices of its definitions found with counters that are carried along, over the rules of
//! `comp_scopes` and the lists of `comp_expanded`.
//!
//! `form` and `plan` of the crate `comp_scopes` find an index by going over all marks of a scope. Here three passes over a scope find the
//! first refusal, or else the binary definitions with their marks, with one registry of names and one table of indices for each open
//! scope. The passes are functions over the model, in `specs/`; the laws say that they give exactly the first unmet demand, or the form
//! and the plan. A reader's account is in `docs/SCOPES.md`.
//!
//! Of what is carried along:
//!
//! - Counters are counts and the outer aliases so far, each with its space, its item and its index (`Aliased`). A name that leads out asks
//!   for the alias of its item (`alias_of`); where there is none, its own is next in its space and stands behind the others (`past_alias`).
//! - The numbers in the text of a definition's references come with its mark (`places`), so no pass counts how many references stand
//!   behind a name.
#![tactic(auto)]

pub mod laws;
