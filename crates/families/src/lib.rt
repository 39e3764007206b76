// The command families, a module each; texts, popups, and the enum over the families.
#![tactic(auto)]

pub mod ack;
pub mod crossfire;
pub mod fc;
mod fields;
pub mod flow_control;
pub mod general;
pub mod led;
pub mod osd;
pub mod payload;
mod popup;
pub mod screen;
pub mod text;
pub mod vtx;
