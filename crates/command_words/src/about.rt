//! What ketch says of itself.

ghost use Rattle.std.specs.Prelude.{◌≡◌};
ghost use Rattle.command_words.specs.About.{help_text, version_text};

const VERSION: &str = "ketch 0.1.0\n";

const HELP: &str = "Usage: ketch COMMAND ..

  cover CIRCUIT SIGNALS [OPTIONS]  find out which combinations of signals a circuit can show
  goals CIRCUIT SIGNALS            print the circuit whose bad literals are the goals
  replay CIRCUIT SIGNALS WITNESS   replay a witness from reset, and print the goal that it shows
  lrat FORMULA PROOF               check an LRAT proof that a DIMACS formula has no model
  --help                           print this text
  --version                        print the version

Options of cover, in any order, each but the last with a number:

  --depth     0..200                     steps of the search from reset [10]
  --batches   0..16                      batches of random walks [2]
  --length    1..100000                  steps of a walk [1000]
  --stall     1..100000                  steps after which a walk that finds nothing ends [100]
  --hop       0..50                      steps of a search from a simulated state [4]
  --seed      0..18446744073709551615    start of the random numbers [1]
  --lemmas    1..1000000                 lemmas that a query may spend [20000]
  --strength  0..2                       literals of an inductive clause [2]
  --rounds    0                          rounds after the first [0]
  --workers   1..8                       threads [4]
  --proofs                               tell the searches that find nothing, with their proofs

Statuses:

  0  every goal is settled, the circuit is printed, or the proof or witness is accepted
  1  some goal is open
  2  an invalid command line
  3  a file cannot be read
  4  the circuit is not accepted
  5  the signals are not accepted
  6  a file or a number is past its limit
  7  the output cannot be written
  8  out of memory
  9  the proof or witness is not accepted
";

pub fn help_text() -> &'static str
    ensures { result.now ≡ help_text }
{
    HELP
}

pub fn version_text() -> &'static str
    ensures { result.now ≡ version_text }
{
    VERSION
}
