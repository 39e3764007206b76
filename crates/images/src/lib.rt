// What crosses the C boundary (include/crsf.h): images, the records that they are images of, and the answer word.
#![tactic(auto)]

pub mod ack;
pub mod fields;
pub mod number;
pub mod popup;
pub mod record;
pub mod stored;
mod values;
pub mod word;
