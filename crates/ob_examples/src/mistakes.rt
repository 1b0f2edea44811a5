//! Bodies that go wrong, as those of no accepted program do, and what mends them.
ghost use Rattle.std.specs.Prelude.{◌≡◌, true};
ghost use Rattle.ob_examples.specs.Written.{tells_wrong, has_returned};
ghost use Rattle.ob_examples.specs.Mistakes.{look, open_empty, shut, stay_shut, half_fill, fill, set_one, shut_with_one, shut_twice, shut_once, fill_late, take_open, leave_open, leave_shut, give_back, shut_it, label_it, shut_jar, open_jar, run_on_jar, of_shut_jar, of_open_jar, jar_is_filled, of_shelf_with};
ghost use Rattle.ob_examples.specs.ConstructorMistakes.{tally_of_itself, tally_of_one, tally_of_nothing, shared_in_no_state, shared_and_shut, shut_for_open, shut_as_given, new_of};

/// A body goes wrong by each of the tests at which a run may: of the fields of `this`, of values and states that are to be
/// there, of owners at a call or a `new`, of owners at a return, and of staged fields; with their change of state after
/// them these are right.
pub fn mistakes_go_wrong()
    ensures field_is_lacking { of_shut_jar look ≡ tells_wrong }
    ensures field_is_unset { new_of tally_of_itself ≡ tells_wrong }
    ensures assigned_field_is_lacking { of_shut_jar set_one ≡ tells_wrong }
    ensures given_field_is_lacking { of_open_jar shut_with_one ≡ tells_wrong }
    ensures value_is_missing { of_shut_jar open_empty ≡ tells_wrong }
    ensures new_object_lacks_value { new_of tally_of_nothing ≡ tells_wrong }
    ensures new_object_lacks_state { new_of shared_in_no_state ≡ tells_wrong }
    ensures receiver_is_outside { of_shut_jar shut ≡ tells_wrong }
    ensures receiver_in_body_is_outside { of_shelf_with shut_jar shut_it ≡ tells_wrong }
    ensures this_is_outside { of_open_jar shut_twice ≡ tells_wrong }
    ensures argument_is_outside { of_shelf_with shut_jar take_open ≡ tells_wrong }
    ensures argument_of_new_is_outside { of_shelf_with shut_jar label_it ≡ tells_wrong }
    ensures exit_is_outside { of_shut_jar stay_shut ≡ tells_wrong }
    ensures exit_of_parameter_is_outside { of_shelf_with open_jar leave_open ≡ tells_wrong }
    ensures result_is_outside { of_shelf_with shut_jar give_back ≡ tells_wrong }
    ensures result_of_constructor_is_outside { new_of shut_for_open ≡ tells_wrong }
    ensures row_is_broken { of_shut_jar half_fill ≡ tells_wrong }
    ensures row_is_interrupted { of_shut_jar fill_late ≡ tells_wrong }
    ensures row_is_tested_before_its_unit { run_on_jar 1 shut_jar half_fill ≡ tells_wrong }
    ensures row_is_whole { of_shut_jar fill ≡ jar_is_filled }
{}

/// With its mistake mended, or on an object that is as the body takes it to be, each of these bodies returns.
pub fn mended_mistakes_return()
    ensures field_is_lacking { has_returned (of_open_jar look) ≡ true }
    ensures field_is_unset { has_returned (new_of tally_of_one) ≡ true }
    ensures assigned_field_is_lacking { has_returned (of_open_jar set_one) ≡ true }
    ensures given_field_is_lacking { has_returned (of_open_jar shut) ≡ true }
    ensures value_is_missing { has_returned (of_shut_jar fill) ≡ true }
    ensures new_object_lacks_value { has_returned (new_of tally_of_one) ≡ true }
    ensures new_object_lacks_state { has_returned (new_of shared_and_shut) ≡ true }
    ensures receiver_is_outside { has_returned (of_open_jar shut) ≡ true }
    ensures receiver_in_body_is_outside { has_returned (of_shelf_with open_jar shut_it) ≡ true }
    ensures this_is_outside { has_returned (of_open_jar shut_once) ≡ true }
    ensures argument_is_outside { has_returned (of_shelf_with open_jar take_open) ≡ true }
    ensures argument_of_new_is_outside { has_returned (of_shelf_with open_jar label_it) ≡ true }
    ensures exit_is_outside { has_returned (of_shut_jar fill) ≡ true }
    ensures exit_of_parameter_is_outside { has_returned (of_shelf_with open_jar leave_shut) ≡ true }
    ensures result_is_outside { has_returned (of_shelf_with open_jar give_back) ≡ true }
    ensures result_of_constructor_is_outside { has_returned (new_of shut_as_given) ≡ true }
    ensures row_is_broken { has_returned (of_shut_jar fill) ≡ true }
    ensures row_is_interrupted { has_returned (of_shut_jar fill) ≡ true }
{}
