//! The laws of tables, of what leaves with a hypercall and comes back, and of entropy words: each is the contract of a function that does nothing.

ghost use Rattle.pef_model.specs.TableLaw.{NumbersHaveTheirRows, OtherNumbersHaveNone};
ghost use Rattle.pef_model.specs.ScrubLaw.{EachRowShowsInputsAlone, EachHypercallShowsInputsAlone, SameInputsShowTheSame};
ghost use Rattle.pef_model.specs.ReturnLaw.{EachRowTakesOutputsAlone, EachCallComesBack, EachReturnGoesOn, ACallComesBack};
ghost use Rattle.pef_model.specs.CallLaw.{AnswersExactlyWhere};
ghost use Rattle.pef_model.specs.RandomLaw.{WordsAreGivenInOrder, EachWordIsGivenOnce, NoWordInDeeds, AWordIsGiven, AWordStaysIn};

/// A number's row is the one row of a table that has the number.
pub fn numbers_have_their_rows()
    ensures { NumbersHaveTheirRows }
{}

/// A number has no row exactly where no row of a table has it.
pub fn other_numbers_have_none()
    ensures { OtherNumbersHaveNone }
{}

/// With each row of every table R3 is the row's number, the inputs are kept, and every other register is 0.
pub fn each_row_shows_inputs_alone()
    ensures { EachRowShowsInputsAlone }
{}

/// So is it with each row of the table of hypercalls.
pub fn each_hypercall_shows_inputs_alone()
    ensures { EachHypercallShowsInputsAlone }
{}

/// Guests whose registers have the same inputs show the same, whatever else they hold.
pub fn same_inputs_show_the_same()
    ensures { SameInputsShowTheSame }
{}

/// With each row of every table an answered hypercall has the answer in R3 and its outputs in R4 and the registers after it, and
/// every other register is as it was.
pub fn each_row_takes_outputs_alone()
    ensures { EachRowTakesOutputsAlone }
{}

/// From a hypercall that leaves to the UV_RETURN that answers it, whatever happens in between, a vCPU's registers change by that
/// answer and its outputs alone, and it goes on after the call.
pub fn each_call_comes_back()
    ensures { EachCallComesBack }
{}

/// A vCPU that UV_RETURN takes up goes on in the call in which it waits, and as a guest where it waits in none, under its guest's
/// generation.
pub fn each_return_goes_on()
    ensures { EachReturnGoesOn }
{}

/// A guest's hypercall is answered on another CPU, and it finds the answer, the outputs, and what else it had.
pub fn a_call_comes_back()
    ensures { ACallComesBack }
{}

/// A hypercall of a guest that isn't in normal memory has H_FUNCTION, H_UNSUPPORTED, H_HARDWARE and H_SUCCESS exactly there, by the
/// row of its number and the number of entropy words that are left.
pub fn answers_exactly_where()
    ensures { AnswersExactlyWhere }
{}

/// The words that a guest has left are those behind the ones that were given.
pub fn words_are_given_in_order()
    ensures { WordsAreGivenInOrder }
{}

/// A hypercall that has H_SUCCESS gives R4 the first word that was not given before, and its entry tells the call's number alone.
pub fn each_word_is_given_once()
    ensures { EachWordIsGivenOnce }
{}

/// What a step does is the same whatever words are left.
pub fn no_word_in_deeds()
    ensures { NoWordInDeeds }
{}

/// A guest with one word has it, and H_HARDWARE from then on.
pub fn a_word_is_given()
    ensures { AWordIsGiven }
{}

/// Runs whose words differ are alike and show the same, until the guest lets its word out.
pub fn a_word_stays_in()
    ensures { AWordStaysIn }
{}
