//! The commands of `explain` over the study of a file: `instance`, `rules`, `cores` and `study`.
#![tactic(auto)]

mod cores_command;
mod instance_command;
mod rules_command;
mod study_command;

pub use cores_command::cores;
pub use instance_command::instance;
pub use rules_command::rules;
pub use study_command::look;
