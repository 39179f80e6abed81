//! The turns of `serve`: the parts of a turn in their order, and the loop of turns.
ghost use Rattle.std.specs.Prelude.{◌≡◌, IfErr, IfOk};
ghost use Rattle.server.specs.ServiceTurns.{BreaksOff, EndsBy, TakesWhole};

use jobs::Fault;

/// The parts of a turn of a service.
///
/// Each relation is between the service before a call, the arguments of the call, its answer, and the service after it.
/// Generic code obtains a relation only by a call, so its contract can say which calls it made, in which order, and
/// what it did with the answers.
pub trait TurnParts {
    ghost use Rattle.std.specs.Prelude.{Bool, Result};
    ghost use Rattle.jobs.specs.declared.fault.Fault.{Fault};

    ghost served: { Self → Bool → Result Bool Fault → Self → Type 0 };

    ghost timed: { Self → Bool → Result Bool Fault → Self → Type 0 };

    ghost consulted: { Self → Result Bool Fault → Self → Type 0 };

    ghost obeyed: { Self → Result Bool Fault → Self → Type 0 };

    ghost told: { Self → Bool → Self → Type 0 };

    ghost is_over: { Self → Bool };

    ghost finished: { Self → Result Unit Fault → Self → Type 0 };

    /// Waits until a socket is ready, and serves each connection once. Doesn't wait if the turn before did something
    /// (`busy`). Answers whether it did something.
    fn serve_all(&mut self, busy: bool) -> Result<bool, Fault>
        ensures { served self.old busy result self.new };

    /// Reads the clock, and applies the time limits. `moved`: the connections were active. Answers whether it acted.
    fn keep_time(&mut self, moved: bool) -> Result<bool, Fault>
        ensures { timed self.old moved result self.new };

    /// Continues the exchanges with the application. Answers whether it did something.
    fn consult(&mut self) -> Result<bool, Fault>
        ensures { consulted self.old result self.new };

    /// Does what operators command. Answers whether it did something.
    fn obey(&mut self) -> Result<bool, Fault>
        ensures { obeyed self.old result self.new };

    /// Lets the watcher do its work. Answers whether it did something.
    fn tell(&mut self) -> bool
        ensures { told self.old result self.new };

    /// Whether operators ended the service.
    fn is_over(&self) -> bool
        ensures { result ≡ is_over self.now };

    /// Ends the sessions.
    fn finish(&mut self) -> Result<(), Fault>
        ensures { finished self.old result self.new };
}

/// One turn. Answers whether it did something; the first fault ends it.
pub fn take_turn<S: TurnParts>(service: &mut S, busy: bool) -> Result<bool, Fault>
    ensures whole { IfOk result
        (λ did. TakesWhole S.served S.timed S.consulted S.obeyed S.told service.old busy did service.new) }
    ensures broken { IfErr result
        (λ why. BreaksOff S.served S.timed S.consulted S.obeyed S.told service.old busy why service.new) }
{
    let moved = service.serve_all(busy)?;
    let timed = service.keep_time(moved)?;
    let decided = service.consult()?;
    let obeyed = service.obey()?;
    let told = service.tell();
    Ok(moved | timed | decided | obeyed | told)
}

/// Takes at most this number of turns, until one fails, and returns its fault; TurnsOver after the last. If operators
/// ended the service before a turn, it is finished.
pub fn take_turns<S: TurnParts>(service: &mut S, turns: u64) -> Result<(), Fault>
    ensures { EndsBy S.served S.timed S.consulted S.obeyed S.told S.is_over S.finished turns service.old result
        service.new }
{
    let mut busy = false;
    for _ in 0..turns {
        if service.is_over() {
            return service.finish();
        }
        busy = match take_turn(service, busy) {
            Ok(busy) => busy,
            Err(fault) => return Err(fault),
        };
    }
    Err(Fault::TurnsOver)
}
