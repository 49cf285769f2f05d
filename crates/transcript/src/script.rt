//! The calls of a day, and the turns in which their answers are told.
ghost use Rattle.std.specs.Prelude.{◌≡◌, ◌∷◌, ◌++◌, [], IfOk, OnOk, map};
ghost use Rattle.call_lines.specs.Asked.{call, load, entry};
ghost use Rattle.transcript.specs.Scripts.{asked_calls, turns};

use call_lines::call_line::CallLine;
use records::line::Line;
use runs::call::Call;
use std::alloc::{AllocError, Global};

// What is told next.
#[derive(Clone, Copy, Debug, PartialEq, Eq)]
pub(crate) enum Turn {
    // The answer to the next call.
    Call,
    // A card has come into force.
    Card,
}

#[derive(Debug, Drop)]
pub(crate) struct Script {
    pub(crate) calls: Vec<Call>,
    pub(crate) turns: Vec<Turn>,
}

impl Script {
    ghost use Rattle.transcript.specs.Scripts.{Says, Adds};

    // The loads, and then the lines.
    pub(crate) fn of(
        loads: &[Line],
        lines: Vec<CallLine>,
        heap: Global,
    ) -> Result<Script, AllocError>
        ensures { IfOk result (λ s. Says s (map (λ (x : Line). call (load x)) loads.now ++ map entry lines.items)) }
    {
        let mut script = Script {
            calls: Vec::new(heap),
            turns: Vec::new(heap),
        };
        script.add_loads(loads)?;
        script.add_lines(lines)?;
        Ok(script)
    }

    // Puts one more line down.
    fn add(&mut self, line: CallLine) -> Result<(), AllocError>
        ensures { OnOk result (Adds self.old self.new (entry line ∷ [])) }
    {
        let turn = match line {
            CallLine::Call(call) => {
                self.calls.push(call)?;
                Turn::Call
            }
            CallLine::Card(_) => Turn::Card,
        };
        self.turns.push(turn)?;
        Ok(())
    }

    fn add_loads(&mut self, loads: &[Line]) -> Result<(), AllocError>
        ensures { OnOk result (Adds self.old self.new (map (λ (x : Line). call (load x)) loads.now)) }
    {
        for line in loads {
            self.add(CallLine::Call(Call::Load(*line)))?;
        }
        Ok(())
    }

    fn add_lines(&mut self, lines: Vec<CallLine>) -> Result<(), AllocError>
        ensures { OnOk result (Adds self.old self.new (map entry lines.items)) }
    {
        for line in lines {
            self.add(line)?;
        }
        Ok(())
    }
}
