// Sets with a flaw, windows that show it, and the same windows of the sets without it.
ghost use Rattle.std.specs.Prelude.{◌≡◌, [], ◌∷◌, true, false};
ghost use Rattle.set_tree.specs.Formulas.{meaning_of, entries_from};
ghost use Rattle.set_tree.specs.Lines.{ViolatesChoose, ViolatesDetermine, ViolatesEnd, ViolatesHand, ViolatesSplit};
ghost use Rattle.set_tree.specs.Runs.{ViolatesOperation, ViolatesStep};
ghost use Rattle.set_tree.specs.Traces.{IsConstrained};
ghost use Rattle.vlog_tree.specs.Value.{width_of};
ghost use Rattle.set_tree_completeness.specs.Counter.{counter_design, counter_names, counter_set, hold_without_hand, q, step_alone, unsized_step};
ghost use Rattle.set_tree_completeness.specs.Flip.{flip_of_input, flip_set};
ghost use Rattle.set_tree_completeness.specs.Hop.{four, hop_design, hop_four, hop_three_four};
ghost use Rattle.set_tree_completeness.specs.Pipe.{pipe_at_seven, pipe_set};
ghost use Rattle.set_tree_completeness.specs.Terms.{cover_to, equals, plus, sized, unsized};
ghost use Rattle.set_tree_completeness.specs.Waiter.{waiter_set, waiter_unconstrained};

/// An unsized 1 makes a sum, and so a comparison with it, 32 bits long: where q goes from 3 to 0, `q@1 == q@0 + 2'd1`
/// holds and `q@1 == q@0 + 1` doesn't, so `op step` is refuted with the latter alone (IEEE 1364-2005, 5.4.1).
pub fn unsized_numbers_have_32_bits()
    ensures length { width_of (entries_from counter_names 0 ((1 ∷ 3 ∷ []) ∷ [])) (plus (q 0) (unsized 1)) ≡ 32 }
    ensures unsized_one { (meaning_of counter_set).value (equals (q 1) (plus (q 0) (unsized 1)))
        ((1 ∷ 3 ∷ []) ∷ (0 ∷ 0 ∷ []) ∷ []) ≡ 0 }
    ensures sized_one { (meaning_of counter_set).value (equals (q 1) (plus (q 0) (sized 2 1)))
        ((1 ∷ 3 ∷ []) ∷ (0 ∷ 0 ∷ []) ∷ []) ≡ 1 }
    ensures refuted { ViolatesOperation counter_design (meaning_of unsized_step) unsized_step 1
        (record { rst = false; en = true; q = 3 } ∷ record { rst = false; en = false; q = 0 } ∷ []) }
    ensures kept { ¬ ViolatesOperation counter_design (meaning_of counter_set) counter_set 1
        (record { rst = false; en = true; q = 3 } ∷ record { rst = false; en = false; q = 0 } ∷ []) }
{}

/// Without `hold`, nothing follows reset or a step where en is 0: `split reset` and `split step` are refuted.
/// With it, neither window refutes them.
pub fn step_alone_is_not_split()
    ensures reset { ViolatesSplit (meaning_of step_alone) step_alone 0 0
        ((0 ∷ 0 ∷ []) ∷ (0 ∷ 0 ∷ []) ∷ []) }
    ensures step { ViolatesSplit (meaning_of step_alone) step_alone 1 1
        ((1 ∷ 3 ∷ []) ∷ (0 ∷ 0 ∷ []) ∷ (0 ∷ 0 ∷ []) ∷ []) }
    ensures reset_kept { ¬ ViolatesSplit (meaning_of counter_set) counter_set 0 0
        ((0 ∷ 0 ∷ []) ∷ (0 ∷ 0 ∷ []) ∷ []) }
    ensures step_kept { ¬ ViolatesSplit (meaning_of counter_set) counter_set 1 1
        ((1 ∷ 3 ∷ []) ∷ (0 ∷ 0 ∷ []) ∷ (0 ∷ 0 ∷ []) ∷ []) }
{}

/// Where `hold` hands nothing over, q may differ from its start on: `hand hold step` and `determine hold` are refuted.
/// Where it hands q over, neither pair of windows refutes them.
pub fn hold_without_hand_is_open()
    ensures hand { ViolatesHand (meaning_of hold_without_hand) hold_without_hand 2 1 1
        ((0 ∷ 0 ∷ []) ∷ (1 ∷ 0 ∷ []) ∷ (0 ∷ 1 ∷ []) ∷ [])
        ((0 ∷ 1 ∷ []) ∷ (1 ∷ 1 ∷ []) ∷ (0 ∷ 2 ∷ []) ∷ []) }
    ensures determine { ViolatesDetermine (meaning_of hold_without_hand) hold_without_hand 2 1 (cover_to 1 1 2) 1
        ((0 ∷ 0 ∷ []) ∷ (0 ∷ 0 ∷ []) ∷ [])
        ((0 ∷ 1 ∷ []) ∷ (0 ∷ 1 ∷ []) ∷ []) }
    ensures hand_kept { ¬ ViolatesHand (meaning_of counter_set) counter_set 2 1 1
        ((0 ∷ 0 ∷ []) ∷ (1 ∷ 0 ∷ []) ∷ (0 ∷ 1 ∷ []) ∷ [])
        ((0 ∷ 1 ∷ []) ∷ (1 ∷ 1 ∷ []) ∷ (0 ∷ 2 ∷ []) ∷ []) }
    ensures determine_kept { ¬ ViolatesDetermine (meaning_of counter_set) counter_set 2 1 (cover_to 1 1 2) 1
        ((0 ∷ 0 ∷ []) ∷ (0 ∷ 0 ∷ []) ∷ [])
        ((0 ∷ 1 ∷ []) ∷ (0 ∷ 1 ∷ []) ∷ []) }
{}

/// Where assumptions read a state that nobody hands over, it may differ: `choose reset on` and `choose on off` are
/// refuted. Where it is an input, neither pair of windows refutes them.
pub fn unhanded_states_leave_a_choice()
    ensures reset_on { ViolatesChoose (meaning_of flip_set) flip_set 0 1 0
        ((0 ∷ 1 ∷ []) ∷ (0 ∷ 1 ∷ []) ∷ [])
        ((0 ∷ 0 ∷ []) ∷ (0 ∷ 0 ∷ []) ∷ []) }
    ensures on_off { ViolatesChoose (meaning_of flip_set) flip_set 1 2 1
        ((0 ∷ 1 ∷ []) ∷ (1 ∷ 0 ∷ []) ∷ (1 ∷ 0 ∷ []) ∷ [])
        ((0 ∷ 1 ∷ []) ∷ (1 ∷ 1 ∷ []) ∷ (0 ∷ 1 ∷ []) ∷ []) }
    ensures reset_on_kept { ¬ ViolatesChoose (meaning_of flip_of_input) flip_of_input 0 1 0
        ((0 ∷ 1 ∷ []) ∷ (0 ∷ 1 ∷ []) ∷ [])
        ((0 ∷ 0 ∷ []) ∷ (0 ∷ 0 ∷ []) ∷ []) }
    ensures on_off_kept { ¬ ViolatesChoose (meaning_of flip_of_input) flip_of_input 1 2 1
        ((0 ∷ 1 ∷ []) ∷ (1 ∷ 0 ∷ []) ∷ (1 ∷ 0 ∷ []) ∷ [])
        ((0 ∷ 1 ∷ []) ∷ (1 ∷ 1 ∷ []) ∷ (0 ∷ 1 ∷ []) ∷ []) }
{}

/// With `o == 8'd7` as the domain of o, one trace alone may be in the domain: `determine reset` and `determine move`
/// are refuted. With `v` as its domain, neither pair of windows refutes them.
pub fn domains_may_hold_in_one_trace()
    ensures reset { ViolatesDetermine (meaning_of pipe_at_seven) pipe_at_seven 0 0 (cover_to 3 0 1) 0
        ((0 ∷ 0 ∷ 0 ∷ 7 ∷ []) ∷ [])
        ((0 ∷ 0 ∷ 0 ∷ 6 ∷ []) ∷ []) }
    ensures moved { ViolatesDetermine (meaning_of pipe_at_seven) pipe_at_seven 1 1 (cover_to 3 1 2) 1
        ((0 ∷ 0 ∷ 0 ∷ 0 ∷ []) ∷ (0 ∷ 0 ∷ 0 ∷ 7 ∷ []) ∷ [])
        ((0 ∷ 0 ∷ 0 ∷ 0 ∷ []) ∷ (0 ∷ 0 ∷ 0 ∷ 6 ∷ []) ∷ []) }
    ensures reset_kept { ¬ ViolatesDetermine (meaning_of pipe_set) pipe_set 0 0 (cover_to 3 0 1) 0
        ((0 ∷ 0 ∷ 0 ∷ 7 ∷ []) ∷ [])
        ((0 ∷ 0 ∷ 0 ∷ 6 ∷ []) ∷ []) }
    ensures moved_kept { ¬ ViolatesDetermine (meaning_of pipe_set) pipe_set 1 1 (cover_to 3 1 2) 1
        ((0 ∷ 0 ∷ 0 ∷ 0 ∷ []) ∷ (0 ∷ 0 ∷ 0 ∷ 7 ∷ []) ∷ [])
        ((0 ∷ 0 ∷ 0 ∷ 0 ∷ []) ∷ (0 ∷ 0 ∷ 0 ∷ 6 ∷ []) ∷ []) }
{}

/// An invariant that is true in every run need not be inductive: `step four` is refuted from q = 3, which no run
/// reaches. With a second invariant that excludes 3, the segment doesn't refute it.
pub fn true_invariants_may_not_be_inductive()
    ensures four { ViolatesStep hop_design (meaning_of hop_four) hop_four four
        (record { rst = false; q = 3 } ∷ record { rst = false; q = 4 } ∷ []) }
    ensures four_kept { ¬ ViolatesStep hop_design (meaning_of hop_three_four) hop_three_four four
        (record { rst = false; q = 3 } ∷ record { rst = false; q = 4 } ∷ []) }
{}

/// An operation that waits for an answer need not end: `end serve` is refuted. Where a constraint says that the answer
/// comes, the same rows are no constrained trace, and so no window.
pub fn answers_must_be_constrained_to_come()
    ensures end { ViolatesEnd (meaning_of waiter_unconstrained) waiter_unconstrained 2
        ((1 ∷ 0 ∷ 0 ∷ []) ∷ (0 ∷ 0 ∷ 1 ∷ []) ∷ (0 ∷ 0 ∷ 1 ∷ []) ∷ (0 ∷ 0 ∷ 1 ∷ []) ∷ (0 ∷ 0 ∷ 1 ∷ []) ∷ []) }
    ensures unmet { ¬ IsConstrained (meaning_of waiter_set) waiter_set
        ((1 ∷ 0 ∷ 0 ∷ []) ∷ (0 ∷ 0 ∷ 1 ∷ []) ∷ (0 ∷ 0 ∷ 1 ∷ []) ∷ (0 ∷ 0 ∷ 1 ∷ []) ∷ (0 ∷ 0 ∷ 1 ∷ []) ∷ []) }
    ensures end_kept { ¬ ViolatesEnd (meaning_of waiter_set) waiter_set 2
        ((1 ∷ 0 ∷ 0 ∷ []) ∷ (0 ∷ 0 ∷ 1 ∷ []) ∷ (0 ∷ 0 ∷ 1 ∷ []) ∷ (0 ∷ 0 ∷ 1 ∷ []) ∷ (0 ∷ 0 ∷ 1 ∷ []) ∷ []) }
{}
