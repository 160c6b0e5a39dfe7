// What a form builder asks of a book: bindings/analysis.rs. Functions take a book or a BookScope, or ask of their caller what one gives (specs/);
// the questions over bytes are the crate `questions`.
#![tactic(auto)]

pub mod chase;
pub mod def_use;
pub mod hand;
pub mod methods;
mod places;
pub mod project;
pub mod reaching;
pub mod recursive;
pub mod use_counts;
