//! What holds of every script.
ghost use Rattle.cluster_script.specs.Script.{EndsOneWay};

use term::node_names_are_exact;

/// A script of known bytes that is played to its end has no line that takes the count past the most, unless it ended at a header for
/// which memory was refused: so for one input `run_script` never both answers and ends with `TooManyLines`, with that one exception.
pub fn one_end()
    ensures { EndsOneWay }
{
    node_names_are_exact();
}
