// What comes back from the stored state's bytes, and from a state that was stored: definitions and a theorem only. A function that does nothing holds the theorem
// to its statement.
#![tactic(auto)]

ghost use Rattle.stored_state.specs.RoundTrip.{RoundTrip};

fn stored_state_comes_back()
    ensures { RoundTrip }
{}
