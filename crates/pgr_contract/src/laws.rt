ghost use Rattle.std.specs.Prelude.{◌≡◌, ◌≤◌, ◌↔◌, Bool, false, ℤ, List, Contains};
ghost use Rattle.pgr_walks.specs.declared.link.LinkOf.{LinkOf};
ghost use Rattle.pgr_words.specs.declared.method.Method.{Method};
ghost use Rattle.pgr_contract.specs.State.{State, ends_of, first_state};
ghost use Rattle.pgr_contract.specs.Given.{AreGiven, HaveOpposites};
ghost use Rattle.pgr_contract.specs.Run.{IsRun};
ghost use Rattle.pgr_walks.specs.Graph.{Fits, greatest};
ghost use Rattle.pgr_contract.specs.Weight.{weight};
ghost use Rattle.pgr_contract.specs.Survivors.{IsHeldIn};
ghost use Rattle.pgr_contract.specs.Distances.{KeepsDistances};

/// Between the vertices that a run leaves every distance over its links is that over the links that it began with.
///
/// In the undirected graph the opposite of each link stands among them.
/// A law; the call does nothing.
pub fn runs_keep_distances()
    ensures { (directed : Bool) (forbidden : List ℤ) (methods : List Method) (links : List (LinkOf ℤ)) (end : State)
        → (directed ≡ false → HaveOpposites links)
        → IsRun directed forbidden methods (first_state links) end
        → KeepsDistances (Contains end.vertices) (Contains links) (Contains end.links) }
{}

/// A run never raises the sum of the costs, counting each undirected edge once; so where it is at most 2^63 - 1, the links
/// that a run leaves fit.
///
/// In the undirected graph the opposite of each link stands among them. A law; the call does nothing.
pub fn runs_fit()
    ensures weight { (directed : Bool) (forbidden : List ℤ) (methods : List Method) (links : List (LinkOf ℤ)) (end : State)
        → (directed ≡ false → HaveOpposites links)
        → IsRun directed forbidden methods (first_state links) end
        → weight directed end.links ≤ weight directed links }
    ensures fits { (directed : Bool) (forbidden : List ℤ) (methods : List Method) (links : List (LinkOf ℤ)) (end : State)
        → (directed ≡ false → HaveOpposites links)
        → weight directed links ≤ greatest
        → IsRun directed forbidden methods (first_state links) end
        → Fits (Contains end.links) }
{}

/// The vertices that a run leaves are those that nothing holds: no vertex that is left, and no shortcut both of whose ends
/// are left.
///
/// No edge is negative, and in the undirected graph the opposite of each link stands among them. A law; the call does nothing.
pub fn runs_leave_what_nothing_holds()
    ensures { (directed : Bool) (forbidden : List ℤ) (methods : List Method) (links : List (LinkOf ℤ)) (end : State)
        → AreGiven links
        → (directed ≡ false → HaveOpposites links)
        → IsRun directed forbidden methods (first_state links) end
        → (x : ℤ)
        → Contains (ends_of links) x
        → Contains end.vertices x ↔ ¬ IsHeldIn end x }
{}
