//! What follows a power failure: all servers stop, all hosts start again, and all crashed servers are
//! recovered as far as that goes.

ghost use Rattle.std.specs.Prelude.{◌≡◌, ◌++◌, ℕ, true, IfOk, OnOk};
ghost use Rattle.rc_world.specs.Happened.{replayed};
ghost use Rattle.rc_runs.specs.declared.cutting.Keeping.TheVariants.{All};
ghost use Rattle.rc_runs.specs.Draw.{newest_server};
ghost use Rattle.rc_runs.specs.Stops.{keeps, gathered, stop_of, start_of, decision_of, decisions_of, cut_scene};

use crate::playing::settled;
use rc_reading::ScenarioEvent;
use rc_types::{Addr, Event, Order, Seq, ServerId};
use rc_world::World;
use std::alloc::{AllocError, Global};

/// Which of its open replicas a host keeps.
#[derive(Clone, Copy)]
pub(crate) enum Keeping {
    /// All of them.
    All,
    /// Those of segments with odd numbers.
    OddSegments,
    /// None.
    Nothing,
}

impl Keeping {
    /// What is kept of these.
    fn of(self, names: Vec<(ServerId, u16)>) -> Vec<(ServerId, u16)>
        ensures { result.items ≡ keeps self names.items }
    {
        let mut names = names;
        match self {
            Keeping::All => {}
            Keeping::OddSegments => names.retain(|name| name.1 % 2 == 1),
            Keeping::Nothing => names.clear(),
        }
        names
    }

    /// Whether it keeps all open replicas of these hosts, so that they start as they do where all are kept.
    pub(crate) fn keeps_all(self, world: &World<Global>, hosts: u8) -> Result<bool, AllocError>
        ensures { IfOk result (λ all. all ≡ true →
            gathered (start_of self (replayed world.now)) hosts ≡ gathered (start_of All (replayed world.now)) hosts) }
    {
        for host in 0..hosts {
            let names = world.open_replicas(host)?;
            let count = names.len();
            if self.of(names).len() < count {
                return Ok(false);
            }
        }
        Ok(true)
    }
}

/// What follows a power failure in this world of so many hosts.
pub(crate) fn cut_scene(
    alloc: Global,
    world: &World<Global>,
    hosts: u8,
    keeping: Keeping,
) -> Result<Vec<ScenarioEvent>, AllocError>
    ensures { IfOk result (λ scene. scene.items ≡ cut_scene hosts keeping (replayed world.now)) }
{
    let mut scene = Vec::new(alloc);
    add_stops(world, hosts, &mut scene)?;
    add_starts(world, hosts, keeping, &mut scene)?;
    scene.push(settled())?;
    scene.push(ScenarioEvent::Core(Event::Tick(Addr::Coordinator)))?;
    scene.push(settled())?;
    add_decisions(world, hosts, &mut scene)?;
    scene.push(settled())?;
    Ok(scene)
}

/// Each running server stops.
fn add_stops(
    world: &World<Global>,
    hosts: u8,
    scene: &mut Vec<ScenarioEvent>,
) -> Result<(), AllocError>
    ensures { OnOk result (scene.new.items ≡ scene.old.items ++ gathered (stop_of (replayed world.now)) hosts) }
{
    for host in 0..hosts {
        add_stop(world, host, scene)?;
    }
    Ok(())
}

/// The newest server of the host stops, where it runs.
fn add_stop(
    world: &World<Global>,
    host: u8,
    scene: &mut Vec<ScenarioEvent>,
) -> Result<(), AllocError>
    ensures { OnOk result (scene.new.items ≡ scene.old.items ++ stop_of (replayed world.now) host) }
{
    let id = newest_server(world, host);
    if world.is_running(id) {
        scene.push(ScenarioEvent::Core(Event::Stop(id)))?;
    }
    Ok(())
}

/// Each host that was ever started starts again.
fn add_starts(
    world: &World<Global>,
    hosts: u8,
    keeping: Keeping,
    scene: &mut Vec<ScenarioEvent>,
) -> Result<(), AllocError>
    ensures { OnOk result
        (scene.new.items ≡ scene.old.items ++ gathered (start_of keeping (replayed world.now)) hosts) }
{
    for host in 0..hosts {
        add_start(world, keeping, host, scene)?;
    }
    Ok(())
}

/// The host starts again, where it was ever started.
fn add_start(
    world: &World<Global>,
    keeping: Keeping,
    host: u8,
    scene: &mut Vec<ScenarioEvent>,
) -> Result<(), AllocError>
    ensures { OnOk result (scene.new.items ≡ scene.old.items ++ start_of keeping (replayed world.now) host) }
{
    if world.newest(host) > 0 {
        let kept = Seq::from_vec(keeping.of(world.open_replicas(host)?));
        scene.push(ScenarioEvent::Core(Event::Start { host, kept }))?;
    }
    Ok(())
}

/// The recovery of each server that has stopped is decided.
fn add_decisions(
    world: &World<Global>,
    hosts: u8,
    scene: &mut Vec<ScenarioEvent>,
) -> Result<(), AllocError>
    ensures { OnOk result (scene.new.items ≡ scene.old.items ++ gathered (decisions_of (replayed world.now)) hosts) }
{
    for host in 0..hosts {
        add_decisions_of(host, world.newest(host), scene)?;
    }
    Ok(())
}

/// The recovery of each of the host's servers up to this one is decided.
fn add_decisions_of(host: u8, newest: u32, scene: &mut Vec<ScenarioEvent>) -> Result<(), AllocError>
    ensures { OnOk result (scene.new.items ≡ scene.old.items ++ gathered (decision_of host) newest) }
{
    for before in 0..newest {
        let id = ServerId {
            index: host,
            generation: before + 1,
        };
        scene.push(ScenarioEvent::Core(Event::Order(Order::Decide(id))))?;
    }
    Ok(())
}

/// The newest server of a host.
fn newest_server(world: &World<Global>, host: u8) -> ServerId
    ensures { result ≡ newest_server (replayed world.now) host }
{
    ServerId {
        index: host,
        generation: world.newest(host),
    }
}
