// The law on the build.
ghost use Rattle.ak_core.specs.Layout.{IsValid};
ghost use Rattle.ak_model.specs.Control.ControlState.{control_at_build};
ghost use Rattle.ak_relation.specs.Premises.Built.{IsBuilt};
ghost use Rattle.ak_relation.specs.Relation.Does.{at_moment};
ghost use Rattle.ak_relation.specs.Relation.Stands.{Stands};
ghost use Rattle.ak_relation.specs.State.MachineState.{State};
ghost use Rattle.std.specs.Prelude.{List, [], ℕ};
ghost use Rattle.ak_core.specs.Layout;

/// After the build the relation holds of the empty history, with no turn and no event.
pub fn built_stands()
    ensures { (layout : Layout.Layout) (image : List ℕ) (state : State) → IsValid layout → IsBuilt layout image state
        → Stands layout image (at_moment [] (control_at_build []) [] state) }
{}
