// What crosses the C boundary of a replay (include/crsf.h): its state and its events as images. They stand here and not in images, so that
// images need not wait for the log.
#![tactic(auto)]

pub mod event;
pub mod state;
