// What is proved of the meaning itself. Each function's contract is a theorem; the code has
// nothing to do.
ghost use Rattle.model.specs.Claims.{ExpandedValue, ExpandedRows, FewerConstraints, WorkedRight, WorkedOut, OneModel};

// Expanded sums come to what the sums come to, and expanded rows hold exactly if the constraints do.
pub fn expanded_rows_hold()
    ensures sums { ExpandedValue }
    ensures rows { ExpandedRows }
{}

// Without one of its constraints a model's best costs no more.
pub fn fewer_constraints_cost_no_more()
    ensures { FewerConstraints }
{}

// What is worked out step by step, with no number of 2^62 or more, is what is meant.
pub fn worked_out_is_meant()
    ensures { WorkedOut }
{}

// Words stand for one model at most.
pub fn words_keep_one_model()
    ensures { OneModel }
{}
// The worked models' outcomes are right.
pub fn worked_models_are_right()
    ensures { WorkedRight }
{}
