// What syntax/mod.rs makes of the files of a book: its imports, and the actor that it means. What an admitted book gives is in an AdmittedBook;
// functions without one ask it of their caller.
#![tactic(auto)]

pub mod actor;
pub mod by_file;
pub mod class;
pub mod files;
mod hashes;
pub mod interface;
