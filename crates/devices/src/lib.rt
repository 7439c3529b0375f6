//! The devices of a machine, a console and a balloon: their registers, which are words at physical addresses, and the
//! interrupt lines that they raise.
//!
//! The crates above use `Devices`, in clauses the console and the balloon (`DevicesAre`). The guest's side is `load` and
//! `store` at a `DeviceRegister` (`device_value`, `device_loaded`, `device_stored`, `page_to_give`), `lines`
//! (`device_lines`) and `touch` (`page_accessed`); the host's side is `feed`, `drain`, `copy_output` and `set_target`.
//! `DeviceRegister::at` is the table of addresses (`device_register_at`). No call but `new`, `drain` and `copy_output`
//! takes memory.
#![tactic(auto)]

pub mod devices;
pub mod laws;
pub mod register;
#[cfg(test)]
mod tests;

pub use devices::Devices;
pub use register::DeviceRegister;
