// What the program says of itself. docs/help.txt has the same words for ./run and the man page.

pub const VERSION: &str = "valetwren 1.0.0";

pub const USAGE: &str = "usage: valetwren [FILE] | --help | --version";

pub const HELP: &str = "\
valetwren 1.0.0 - plays cards: adjustable sheets held by exact relations

usage: valetwren [FILE]
       valetwren --help | --version
       valetwren-run [--explain] [FILE]
       valetwren-run [--explain] --check | --measures | --picture FILE
       valetwren-run --install DIR
       valetwren-run --help | --version

valetwren plays the card FILE, or the card on standard input, and prints its answers: a line for
each line of the card but the first, and then \"end\".

valetwren-run plays a card with valetwren and says more about it. In a clone of the repository it
is the command ./run, which also builds valetwren where the Rattle kit is at hand. What it makes of
a card and its answers is worked out beside the proved program, and is not proved itself.

options:
  FILE        the card; - is standard input. With no FILE, valetwren-run shows a sample card, each
              of its lines beside its answer
  --explain   also says on the error stream, for each refused line, what was wrong, which value it
              is and what to do
  --check     prints the refused lines in place of the answers, and ends with 1 if there are any
  --measures  prints a table for each accepted pull: names, exact fractions of steps, millimetres
  --picture   prints an SVG picture of the sheet as it is kept at the end of the card, with the last
              proposal beside it where that is not kept
  --install   puts into DIR bin/valetwren, bin/valetwren-run and what it needs, this page as a man
              page, and the C library and its header where they are built
  --help      prints this
  --version   prints the version

exit status:
  0  the card was played, refused lines and all
  1  the card could not be played to its end, or its answers not be written; with --check, a line is
     refused; with --measures and --picture, the card is refused in its first line
  2  an argument is wrong, a file cannot be read, or there is no program; with --check, also where
     the card could not be played to its end
";
