//! Scripts for IPX routers and captures of IPX packets, the text that they are answered with, and the program's words.
#![tactic(auto)]

mod chosen;
mod ended;
pub mod laws;
mod lines;
mod machines;
mod making;
mod play;
mod player;
mod show;
mod texts;

pub use crate::chosen::{ChooseFault, Chosen, Run, choose};
pub use crate::ended::{Ended, RunFault, status};
pub use crate::play::{internet, replay};
pub use crate::show::decode;
