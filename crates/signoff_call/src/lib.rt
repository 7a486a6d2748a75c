//! The top call: reads a Verilog module and a set of operation properties, decides the lines of their report, and puts
//! it.
#![tactic(auto)]

mod accepting;
mod answer;
mod files;
mod lines;
mod listing;
mod moved;
mod paths;
mod run;
mod serving;
mod texts;
mod waves;

pub use run::signoff;
