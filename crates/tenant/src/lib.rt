//! A guest of a world, with its seats and its shares, and what its steps and pages do to the frames, the slots and the shared frames
//! around it.
//!
//! In clauses a `Tenant` is a record, `TenantIs` (`specs/Tenants.antt`). While a store is true to digests it is its run, `IsKept`, and
//! each call keeps that. The other calls work on what a world, or a host, lends for one of them: the frames, the slots, the store and
//! the table of shared frames, of which exact books say `Lent` (`specs/Lent.antt`). After `step_in`, `run_in`, `supply_page`,
//! `evict_page`, `scan_page` and `loaded` nothing is lost or made (`Conserves`), and the guest is still its run. `open` takes a tenant apart
//! for an owner who keeps its parts elsewhere.
#![tactic(auto)]

pub mod counts;
pub mod laws;
pub mod loading;
mod moves;
pub mod opened;
pub mod seats;
mod stepping;
mod supplying;
pub mod tenant;
pub mod turning;

pub use counts::{Cause, MoveCounts};
pub use loading::{BootError, loaded};
pub use moves::{EvictError, evict_page, scan_page, store_page, supply_page};
pub use opened::{Opened, PolicyState};
pub use seats::Seats;
pub use stepping::{run_in, step_in};
pub use tenant::Tenant;
pub use turning::Aim;
