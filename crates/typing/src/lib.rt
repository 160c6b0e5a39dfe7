// The check of a declaration: typing.rs. Definitions first, then the actor; and the arguments of an init file.
#![tactic(auto)]

mod actor;
mod decs;
pub mod init;
pub mod prog;
pub mod tables;
mod types;
