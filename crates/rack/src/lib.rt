// The rack's step: what a rack does, which holds each variable in sixteen bits.
#![tactic(auto)]

ghost use Rattle.std.specs.Prelude.{◌≡◌, Ok, ◌≤◌, length};
ghost use Rattle.programs.specs.Calls.{read};
ghost use Rattle.runs.specs.Guards.{Guarded};
ghost use Rattle.runs.specs.Calls.{ready};
ghost use Rattle.runs.specs.Values.{Good};
ghost use Rattle.rack.specs.Rack.{rack_call};
ghost use Rattle.rack.specs.Values.{stored};

use runs::{Begun, Stepped};
use words::Refusal;

// An action, tried on a state as the rack holds it. What it shares with `runs::take_action` is one test: a function of both would
// take the rest as a closure, and be no shorter with the contract that a closure needs.
fn store_action(b: Begun, state: &mut [i32]) -> Stepped
    requires { Good b × (length state.old ≤ 8) }
    ensures { (Ok result ≡ (stored b state.old).answer) × (state.new ≡ (stored b state.old).state) }
{
    if let Some(failing) = runs::first_failing(&b.guard[..b.guards], b.old) {
        return Stepped::NotEnabled(failing);
    }
    let new = sixteen::values(b.rows, sixteen::hold(b.old));
    runs::write(state, new);
    Stepped::Moved
}

// The rack's step: action k of a program, taken on a lent state. It never answers `RunsOff`; `Moved` writes what the rack stores.
pub fn rack_step(words: &[u32], k: usize, state: &mut [i32]) -> Result<Stepped, Refusal>
    ensures { (result ≡ (rack_call words.now k state.old).answer)
        × (state.new ≡ (rack_call words.now k state.old).state)
        × Guarded (ready (read words.now) k state.old) k state.old result }
{
    let begun = runs::begin(words, k, state)?;
    Ok(store_action(begun, state))
}
