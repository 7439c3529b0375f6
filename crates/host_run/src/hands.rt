//! Which thread of a run has which seats.
ghost use Rattle.std.specs.Prelude.{◌≡◌, ◌+◌, ◌≤◌, ◌++◌, [], IfOk, IfErr, length, map, vec_capacity};
ghost use Rattle.host_run.specs.Hands.{debugger_of, hand_of, joined, policy_of, runner_of};

use cell::{Seat, Seats};
use guest_cells::Handles;
use monitor_answers::MonitorHand;
use std::alloc::{AllocError, Global};

/// What was handed out of the guests of a host, by the threads of a run: in each list, what is of guest g at place g.
#[derive(Drop)]
pub struct Hands {
    /// Seat 0 of each guest, for its runner.
    pub runners: Vec<Seat>,
    /// Seat 1 of each guest and the right to put bytes for its console, for the monitor.
    pub monitors: Vec<MonitorHand>,
    /// Seat 2 of each guest, for the policy.
    pub policies: Vec<Seat>,
    /// Seat 3 of each guest, for its debugger.
    pub debuggers: Vec<Seat>,
    /// Room for all of it together again.
    pub room: Vec<Handles>,
}

// What was handed out comes to those who use it, in the order of the guests.
#[tactic(auto, using(crate::proofs::Dealing::dealt_last, crate::proofs::Dealing::dealt_none))]
fn deal(
    handles: &mut Vec<Handles>,
    runners: &mut Vec<Seat>,
    monitors: &mut Vec<MonitorHand>,
    policies: &mut Vec<Seat>,
    debuggers: &mut Vec<Seat>,
)
    requires runners_room { length runners.old.items + length handles.old.items ≤ vec_capacity runners.old }
    requires monitors_room { length monitors.old.items + length handles.old.items ≤ vec_capacity monitors.old }
    requires policies_room { length policies.old.items + length handles.old.items ≤ vec_capacity policies.old }
    requires debuggers_room { length debuggers.old.items + length handles.old.items ≤ vec_capacity debuggers.old }
    ensures handles { handles.new.items ≡ [] }
    ensures runners { runners.new.items ≡ runners.old.items ++ map runner_of handles.old.items }
    ensures monitors { monitors.new.items ≡ monitors.old.items ++ map hand_of handles.old.items }
    ensures policies { policies.new.items ≡ policies.old.items ++ map policy_of handles.old.items }
    ensures debuggers { debuggers.new.items ≡ debuggers.old.items ++ map debugger_of handles.old.items }
    ensures runners_room { vec_capacity runners.new ≡ vec_capacity runners.old }
    ensures monitors_room { vec_capacity monitors.new ≡ vec_capacity monitors.old }
    ensures policies_room { vec_capacity policies.new ≡ vec_capacity policies.old }
    ensures debuggers_room { vec_capacity debuggers.new ≡ vec_capacity debuggers.old }
{
    let Some(last) = handles.pop() else {
        return;
    };
    deal(handles, runners, monitors, policies, debuggers);
    let Handles { seats, feed } = last;
    let Seats {
        runner,
        console,
        policy,
        debugger,
    } = seats;
    runners.push_reserved(runner);
    monitors.push_reserved(MonitorHand {
        seat: console,
        feed,
    });
    policies.push_reserved(policy);
    debuggers.push_reserved(debugger);
}

// What was dealt to four threads comes together again, in the order of the guests.
#[tactic(auto, using(crate::proofs::Dealing::joined_more, crate::proofs::Dealing::joined_none))]
fn gather(
    runners: &mut Vec<Seat>,
    monitors: &mut Vec<MonitorHand>,
    policies: &mut Vec<Seat>,
    debuggers: &mut Vec<Seat>,
    handles: &mut Vec<Handles>,
)
    requires monitors { length monitors.old.items ≡ length runners.old.items }
    requires policies { length policies.old.items ≡ length runners.old.items }
    requires debuggers { length debuggers.old.items ≡ length runners.old.items }
    requires room { length handles.old.items + length runners.old.items ≤ vec_capacity handles.old }
    ensures handles { handles.new.items ≡ handles.old.items ++ joined runners.old.items monitors.old.items policies.old.items debuggers.old.items }
    ensures count { length handles.new.items ≡ length handles.old.items + length runners.old.items }
    ensures room { vec_capacity handles.new ≡ vec_capacity handles.old }
{
    let Some(runner) = runners.pop() else {
        return;
    };
    let Some(hand) = monitors.pop() else {
        unreachable!()
    };
    let Some(policy) = policies.pop() else {
        unreachable!()
    };
    let Some(debugger) = debuggers.pop() else {
        unreachable!()
    };
    gather(runners, monitors, policies, debuggers, handles);
    let MonitorHand {
        seat: console,
        feed,
    } = hand;
    handles.push_reserved(Handles {
        seats: Seats {
            runner,
            console,
            policy,
            debugger,
        },
        feed,
    });
}

impl Hands {
    ghost use Rattle.std.specs.Prelude.{◌≡◌, ◌≤◌, [], IfOk, IfErr, length, vec_capacity};
    ghost use Rattle.host_run.specs.Hands.{AreDealt, joined};

    // None yet, with room for those of so many guests.
    fn with_room(alloc: Global, count: usize) -> Result<Hands, AllocError>
        ensures none { IfOk result (λ h. (h.runners.items ≡ []) × (h.monitors.items ≡ []) × (h.policies.items ≡ []) × (h.debuggers.items ≡ []) × (h.room.items ≡ [])) }
        ensures runners { IfOk result (λ h. count ≤ vec_capacity h.runners) }
        ensures monitors { IfOk result (λ h. count ≤ vec_capacity h.monitors) }
        ensures policies { IfOk result (λ h. count ≤ vec_capacity h.policies) }
        ensures debuggers { IfOk result (λ h. count ≤ vec_capacity h.debuggers) }
        ensures room { IfOk result (λ h. count ≤ vec_capacity h.room) }
    {
        let runners = Vec::with_capacity(alloc, count)?;
        let monitors = Vec::with_capacity(alloc, count)?;
        let policies = Vec::with_capacity(alloc, count)?;
        let debuggers = Vec::with_capacity(alloc, count)?;
        let room = Vec::with_capacity(alloc, count)?;
        Ok(Hands {
            runners,
            monitors,
            policies,
            debuggers,
            room,
        })
    }

    /// What was handed out, by threads. Where there is no memory for it, it comes back.
    pub fn of(alloc: Global, mut handles: Vec<Handles>) -> Result<Hands, Vec<Handles>>
        ensures dealt { IfOk result (AreDealt handles.items) }
        ensures back { IfErr result (λ all. all ≡ handles) }
    {
        let Ok(mut hands) = Hands::with_room(alloc, handles.len()) else {
            return Err(handles);
        };
        let all = &mut hands;
        deal(
            &mut handles,
            &mut all.runners,
            &mut all.monitors,
            &mut all.policies,
            &mut all.debuggers,
        );
        handles.destroy_empty();
        Ok(hands)
    }

    /// All of it together again, guest after guest.
    pub fn into_handles(self) -> Vec<Handles>
        requires monitors { length self.monitors.items ≡ length self.runners.items }
        requires policies { length self.policies.items ≡ length self.runners.items }
        requires debuggers { length self.debuggers.items ≡ length self.runners.items }
        requires none { self.room.items ≡ [] }
        requires room { length self.runners.items ≤ vec_capacity self.room }
        ensures { result.items ≡ joined self.runners.items self.monitors.items self.policies.items self.debuggers.items }
    {
        let Hands {
            mut runners,
            mut monitors,
            mut policies,
            mut debuggers,
            mut room,
        } = self;
        gather(
            &mut runners,
            &mut monitors,
            &mut policies,
            &mut debuggers,
            &mut room,
        );
        drop(runners);
        drop(monitors);
        drop(policies);
        drop(debuggers);
        room
    }
}
