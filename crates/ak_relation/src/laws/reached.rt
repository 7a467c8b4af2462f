// Laws that the relation is reached: computed machines of an example.
ghost use Rattle.ak_core.specs.declared.event.Event.TheVariants.{Break, Call, Miss, Trap};
ghost use Rattle.ak_relation.specs.Relation.Example.{IsReached, asked_past, broken_past, built_past, called_past, computed_past, entered_past, faulted_past, guarded_past, input_program, interrupted_past, missed_past, one_page, raised_past, ready_past, resumed_past, returned_past, stopped_past, trapped_past, written_past};
ghost use Rattle.ak_relation.specs.Relation.Witnesses.{IsWitness, ShowsAsking, ShowsBreak, ShowsValue};
ghost use Rattle.std.specs.Prelude.{[], ◌∷◌};

/// An enclave of one page. Some machine is that of its build; one has entered it; one was interrupted there, and has a saved frame; one has
/// written out the area with that frame; one has loaded it into another frame, and was resumed from there; and one has started the program,
/// and completed an instruction of it, with its translation cached. Of one the program has missed its page, which is an event; in one the
/// runtime has asked for its cluster; in one the runtime's own probe of the page has faulted, with two contexts saved; in one it found the
/// page; in one the program then broke; in one the enclave is dead of that; and in one the guard was resumed. Of one the program has called
/// out; in one it goes on with the value that the kernel gave; in one it has raised a vector; and in one that has ended it. So the relation
/// holds of each, by the law on moves.
pub fn example_moments_are_reached()
    ensures built { IsReached built_past [] }
    ensures entered { IsReached entered_past [] }
    ensures interrupted { IsReached interrupted_past [] }
    ensures written { IsReached written_past [] }
    ensures resumed { IsReached resumed_past [] }
    ensures computed { IsReached computed_past [] }
    ensures missed { IsReached missed_past (Miss 0 0 ∷ []) }
    ensures asked { IsReached asked_past (Miss 0 0 ∷ []) }
    ensures faulted { IsReached faulted_past (Miss 0 0 ∷ []) }
    ensures ready { IsReached ready_past (Miss 0 0 ∷ []) }
    ensures broken { IsReached broken_past (Miss 0 0 ∷ Break 0 ∷ []) }
    ensures stopped { IsReached stopped_past (Miss 0 0 ∷ Break 0 ∷ []) }
    ensures guarded { IsReached guarded_past (Miss 0 0 ∷ Break 0 ∷ []) }
    ensures called { IsReached called_past (Call 3 2 0 ∷ []) }
    ensures returned { IsReached returned_past (Call 3 2 0 ∷ []) }
    ensures raised { IsReached raised_past (Call 3 2 0 ∷ Trap 4 6 ∷ []) }
    ensures trapped { IsReached trapped_past (Call 3 2 0 ∷ Trap 4 6 ∷ []) }
{}

/// Three parts of the relation say nothing at most moments. Of the same enclave, some machine stands at a moment at which a saved
/// context broke, and its area names an access that forced the break; some at one at which a cluster is asked for, and STATE keeps the
/// program's frame; and some at one at which the kernel's value was returned to the program, whose flat run has it in RAX.
pub fn rare_moments_stand()
    ensures broken { IsWitness one_page input_program broken_past (Miss 0 0 ∷ Break 0 ∷ []) (ShowsBreak one_page input_program) }
    ensures asked { IsWitness one_page input_program asked_past (Miss 0 0 ∷ []) (ShowsAsking one_page input_program 0) }
    ensures returned { IsWitness one_page input_program returned_past (Call 3 2 0 ∷ []) (ShowsValue one_page input_program 0 9) }
{}
