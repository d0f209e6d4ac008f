// What is proved of texts. Each function's contract is a theorem; the code has nothing to do.
ghost use Rattle.grammar.specs.Bounds.{InBounds};
ghost use Rattle.grammar.specs.Claims.{ReadsRight};
ghost use Rattle.grammar.specs.Examples.{ExamplesRead};
ghost use Rattle.grammar.specs.Says.{OneModel};

// A text says one model at most.
pub fn texts_say_one_model()
    ensures { OneModel }
{}

// Reading takes just the texts that are written without a fault, and tells a syntax fault at the
// first place at which no text goes on so.
pub fn reading_is_right()
    ensures { ReadsRight }
{}

// A text that says a model says one in bounds, so that whoever works on models may build on them.
pub fn said_models_are_in_bounds()
    ensures { InBounds }
{}

// The table of examples is read as it says.
pub fn examples_are_read()
    ensures { ExamplesRead }
{}
