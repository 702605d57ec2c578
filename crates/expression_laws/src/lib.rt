//! Laws of the definitions of `expr_grammar`, each as the contract of a function with nothing to do:
//! texts, their tokens and their trees, there and back.
//!
//! - A list of tokens has one tree at most, and the function that finds the tree or the fault of a
//!   text is the grammar: `tokens_have_one_tree`, `expression_is_parsed`,
//!   `closed_has_no_references`.
//! - Trees that can be spelled are printed and read as themselves, with brackets exactly where they
//!   are needed: `printed_form_is_read`, `parsed_trees_are_spelled`, `brackets_are_needed`.
//! - A tree that can be spelled stays one with other references in place of its own:
//!   `renaming_keeps_spelling`.
//! - A text is read as a path exactly where it is one as an expression:
//!   `paths_are_read_as_expressions`.
//!
//! They stand apart from the code, which no law needs, so that they are proved once. Other laws of
//! trees alone stand in `expr_tree`. Page: `docs/expressions.md`. Laws have no rows.
#![tactic(auto)]

pub mod laws;
