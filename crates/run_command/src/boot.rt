//! The host of a run, and its debugger ports.
ghost use Rattle.std.specs.Prelude.{◌≡◌, IfErr, IfOk};
ghost use Rattle.host_run.specs.Seats.{AreHandedOut};
ghost use Rattle.run_command.specs.Faults.{AreOrdered, IsBootFault, IsPortFault, MayBoot};
ghost use Rattle.run_command.specs.Ports as spec;

use crate::fault::RunFault;
use crate::order::RunOrder;
use booting::{Config, NewGuest};
use cell::Open;
use commands::Fault;
use host::{Booted, Host, PolicyConfig};
use std::alloc::Global;
use std::fs::File;
use std::net::{IpAddr, Ipv4Addr, Net, SocketAddr, TcpListener, TcpStream};
use std::sync::Wait;
use swapstore::FileStore;
use taxpolicy::Tax;

/// The greatest number of runs that a guest's log may have.
const LOG_RUNS: u32 = 1_048_576;

/// The tax on idle memory at first, in percent.
const TAX: u8 = 75;

/// Boots the host of an order over its swap file, with the guests that are ordered.
#[tactic(auto, using(host_run::proofs::Seats::as_asked))]
pub(crate) fn boot<'a, R: Wait>(
    rt: &R,
    alloc: Global,
    order: &RunOrder<'a>,
    guests: Vec<NewGuest>,
    swap: File,
) -> Result<Booted<FileStore<File>, Open>, Fault<'a>>
    requires ordered { AreOrdered order.now.profile order.now.guests.items guests.items }
    ensures handles { IfOk result (λ booted. AreHandedOut booted.host.guests.cells.items booted.handles.items) }
    ensures booted { IfOk result (λ booted. MayBoot order.now) }
    ensures faults { IfErr result (λ fault. IsBootFault order.now fault) }
{
    let config = Config {
        frames: order.frames,
        log_runs: LOG_RUNS,
        admit: order.admit,
    };
    let policy = PolicyConfig {
        tax: Tax { percent: TAX },
        seed: u64::from(order.seed),
    };
    let store = FileStore::new(swap, order.slots);
    match Host::boot(rt, alloc, config, policy, guests, store, Open) {
        Ok(booted) => Ok(booted),
        Err((error, store)) => {
            drop(store);
            Err(Fault::Boot { error })
        }
    }
}

/// The debugger port of a guest, where the order has ports.
pub(crate) fn port_of(first: u16, guest: usize) -> u16
    ensures { result ≡ spec.port_of first guest }
{
    let behind = if guest < LAST_PORT {
        guest as u16
    } else {
        u16::MAX
    };
    first.saturating_add(behind)
}

/// The last port.
const LAST_PORT: usize = 65_535;

/// A door for each guest's debugger port; none where the order wants no ports. The first port that can't be had is the fault.
pub(crate) fn open_doors<'a, R: Net<Listener = TcpListener, Stream = TcpStream>>(
    rt: &R,
    alloc: Global,
    order: &RunOrder<'a>,
) -> Result<Vec<TcpListener>, RunFault<'a>>
    ensures faults { IfErr result (λ fault. IsPortFault order.now fault) }
{
    let mut doors = Vec::with_capacity(alloc, order.guests.len())?;
    if order.port == 0 {
        return Ok(doors);
    }
    for guest in 0..order.guests.len() {
        let port = port_of(order.port, guest);
        let address = SocketAddr::new(IpAddr::V4(Ipv4Addr::LOCALHOST), port);
        match TcpListener::bind(rt, address) {
            Ok(door) => doors.push_reserved(door),
            Err(_) => return Err(RunFault::Port(port)),
        }
    }
    Ok(doors)
}
