//! Runs a world until it is idle: delivers all bytes in transit and lets the host act, until that has no effect.
ghost use Rattle.std.specs.Prelude.{◌≡◌, List, None, IfOk, OnErr, OnOk};
ghost use Rattle.host_core.specs.State.{most_connections};
ghost use Rattle.world3270.specs.model.ByteRuns.{refused_at};
ghost use Rattle.world3270.specs.model.ByteSteps.{Steps};
ghost use Rattle.scripts.specs.Happenings.{AreRounds, Happening, IsStopped, RunsEvents, TakePlace, exchange_events, is_skipped, most_rounds, round_below};

use host_core::MOST_CONNECTIONS;
use std::alloc::AllocError;
use world3270::{Event, Stepped, World};

/// The most rounds of one run.
const MOST_ROUNDS: u32 = 64;

/// More bytes than can ever be in transit.
const ALL_BYTES: usize = usize::MAX;

/// Takes one event, unless it is skipped. An error if memory is refused, even if a part of a delivery took place.
pub(crate) fn step_whole(world: &mut World, event: Event) -> Result<Stepped, AllocError>
    ensures steps { IfOk result (λ answer. Steps event world.old answer world.new) }
    ensures whole { IfOk result (λ answer. refused_at answer ≡ None) }
    ensures stopped { OnErr result (IsStopped world.old world.new) }
{
    let answer = world.step(event);
    match answer {
        Stepped::Done | Stepped::Refused(_) | Stepped::Skipped => Ok(answer),
        Stepped::Part(_) => Err(AllocError),
        Stepped::Memory => Err(AllocError),
    }
}

/// Whether an event was skipped.
fn is_skipped(answer: Stepped) -> bool
    ensures { result ≡ is_skipped answer }
{
    matches!(answer, Stepped::Skipped)
}

/// On one connection, delivers all bytes to the host, lets the host act, and delivers all bytes to the terminal.
/// Answers whether all three events were skipped.
fn exchange(world: &mut World, number: usize) -> Result<bool, AllocError>
    ensures stopped { OnErr result (IsStopped world.old world.new) }
    ensures runs { IfOk result (λ quiet. RunsEvents (exchange_events number) world.old quiet world.new) }
{
    let up = step_whole(world, Event::Up(number, ALL_BYTES))?;
    let act = step_whole(world, Event::Act(number))?;
    let down = step_whole(world, Event::Down(number, ALL_BYTES))?;
    Ok(is_skipped(up) & is_skipped(act) & is_skipped(down))
}

/// Makes one exchange on each connection. Answers whether all events were skipped.
fn run_round(world: &mut World) -> Result<bool, AllocError>
    ensures stopped { OnErr result (IsStopped world.old world.new) }
    ensures runs { IfOk result (λ quiet. RunsEvents (round_below most_connections) world.old quiet world.new) }
{
    let mut quiet = true;
    for number in 0..MOST_CONNECTIONS {
        quiet &= exchange(world, number)?;
    }
    Ok(quiet)
}

/// Runs rounds until all events of one are skipped, at most `MOST_ROUNDS`. An error only if memory is refused.
pub(crate) fn run_until_idle(world: &mut World) -> Result<(), AllocError>
    ensures stopped { OnErr result (IsStopped world.old world.new) }
    ensures rounds { OnOk result
        ((happenings : List Happening) × AreRounds most_rounds happenings × TakePlace happenings world.old world.new) }
{
    for _ in 0..MOST_ROUNDS {
        if run_round(world)? {
            return Ok(());
        }
    }
    Ok(())
}
