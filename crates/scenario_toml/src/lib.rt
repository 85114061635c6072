//! Scenario files: TOML that says what a test is made of, read into a scenario, of which a plan is made.
#![tactic(auto)]

mod choice;
mod counts_rule;
mod draws;
mod entries;
mod fault;
mod key_name;
mod keys;
mod made;
mod name_text;
mod planning;
mod read;
mod replaying;
mod scenario;
mod strategy;
mod watch;

pub use choice::Choice;
pub use counts_rule::CountsRule;
pub use fault::ScenarioFault;
pub use key_name::KeyName;
pub use made::made_scenario;
pub use name_text::NameText;
pub use read::read_scenario;
pub use scenario::Scenario;
pub use strategy::Strategy;
