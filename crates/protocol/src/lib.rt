// The rounds of a ring as a relation between states, and what is promised of every run. The rules that switches keep are
// in specs/, the argument is in proofs/, and there is nothing to run but the type of a standing.
#![tactic(auto)]

ghost use Rattle.protocol.specs.Closable.{Closable};
ghost use Rattle.protocol.specs.LedRun.{LedRun};
ghost use Rattle.protocol.specs.Promises.{Promised};
ghost use Rattle.protocol.specs.WorkedRun.{WorkedRun};

mod standings;

pub use standings::Standing;

/// In every run of every ring: no two orders are carried out, none twice, none that the lead has not signed, at the end by
/// all or by none, and under a sound lead by all once the quoted round is closed.
pub fn promise_holds()
    ensures { Promised }
{}

/// One run of three switches under a lead that lies, worked to its end: the rules can be followed.
pub fn run_stands()
    ensures { WorkedRun }
{}

/// One run of three sound switches, worked to its end: all carry out the lead's order by the quoted round, before the last.
pub fn led_run_stands()
    ensures { LedRun }
{}

/// In every round, whatever a switch holds, a close makes something of its standing: no rule leaves it stuck.
pub fn close_goes_on()
    ensures { Closable }
{}
