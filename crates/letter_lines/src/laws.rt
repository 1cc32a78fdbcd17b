//! Laws of the texts of letters, each the contract of a function that does nothing but call laws of the texts in it.
ghost use Rattle.letter_lines.specs.Laws.{PartsAreExact, LettersAreReadAgain};

use term::{names_are_exact, pids_are_exact, rules_are_exact};

/// Each text is read as one part of a letter, or refused for one fault; and what is read as a part is the one text of this part.
pub fn parts_are_exact()
    ensures { PartsAreExact }
{
    names_are_exact();
    rules_are_exact();
    pids_are_exact();
}

/// The parts of letters, gathered in their order, give just these letters, one behind the other, and nothing is left.
pub fn letters_are_read_again()
    ensures { LettersAreReadAgain }
{}
