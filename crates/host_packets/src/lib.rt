// What C calls of the packet writer, and the CRC by itself.
#![tactic(auto)]

mod checks;
mod writers;
