// Laws: the state of a session, and the steps that its lines may take, as functions of the lines alone.
ghost use Rattle.std.specs.Prelude.{◌≡◌, List, ℕ, Option};
ghost use Rattle.line_session.specs.Session.{Session, Stage, stage_after, costs};
ghost use Rattle.line_session.specs.Folding.{ChangesBy, CostsBy, folded_lines, summed_by};

/// Law: the state after lines is the fold of a function over them, if each line changes the state by that function. So
/// two sessions that change states alike have the same state after the same lines, whatever they write.
pub fn state_is_folded<State>()
    ensures { (session : Session State) (change : State → Option (List ℕ) → State) → ChangesBy session change
        → (stage : Stage State) (ls : List (Option (List ℕ))) → (stage_after session stage ls).state ≡ folded_lines change stage.state ls }
{}

/// Law: lines may take the sum of the steps of each line, in the state that the lines before it leave. The condition is
/// that a line's steps depend on the state and the line alone.
pub fn costs_are_summed<State>()
    ensures { (session : Session State) (change : State → Option (List ℕ) → State) (cost : State → Option (List ℕ) → ℕ)
        → ChangesBy session change → CostsBy session cost
        → (stage : Stage State) (ls : List (Option (List ℕ))) → costs session stage ls ≡ summed_by change cost stage.state ls }
{}
