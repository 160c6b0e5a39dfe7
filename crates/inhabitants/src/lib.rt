// Which types have a value of finite height, and how many they have. Which nodes wait for which: `waiting`; which fill: `filling`, and of names
// `empty`; how many values: `counting`.
#![tactic(auto)]

pub mod counting;
pub mod empty;
mod filling;
mod waiting;
