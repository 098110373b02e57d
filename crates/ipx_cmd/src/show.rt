//! The text of captures: each record in its own lines, and the fault that ends the file.
//! Comes in: an intake with the bytes of a capture.
//! Goes out: text, in large pieces, but always before the intake is asked again.
//! Touches: the intake, the outlet, and the text that waits.
//! `run` is the run of `decode`, `record_lines` a record, `packet_lines` its packet; the others have the lines that follow.
mod capture_word;
mod crossed_line;
mod packet_lines;
mod record_lines;
mod recording;
mod recording_word;
mod rip_lines;
mod run;
mod sap_lines;

pub use crate::show::run::decode;
