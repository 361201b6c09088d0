// What `plan help` and `plan version` say: a line for each word.
use crate::out;

pub fn page() -> bool {
    out::text(
        b"plan: by which tick is the whole frame done, whatever the schedule?

  plan FILE              the sheet; for a board text also its path by names
  plan sheet FILE        the same
  plan json FILE         the sheet and the graph as JSON, for other tools
                         (docs/JSON.md)
  plan gains FILE [STAGE WCET]
                         what a rewrite of each stage would gain, in parts of
                         a tick and in whole ticks, the largest gain first
  plan run FILE [TIMES]  a run: its finish, and each stage's finish instant
  plan late FILE TIMES D whether such a run ends by tick D, yes or no, and how
                         many ticks of it were played to see that
  plan replay FILE LOG   a recorded frame: its finish, and how long each stage
                         took, where the bounds cover it
  plan log FILE [TIMES]  the log of a run, as a board would record it
  plan chart FILE [TIMES | LOG]
                         a picture (SVG) of such a run, or of a recorded frame:
                         which core ran which stage when (docs/PICTURES.md)
  plan dot FILE          the graph, for graphviz to draw
  plan from-stg TEXT CORES KINDS
                         the graph file of a Standard Task Graph text, with
                         the cores of each type, and the type of each task or
                         one for all: numbers parted by commas
  plan to-stg FILE       the Standard Task Graph text of a graph
  plan compare FILE FILE two boards: their sheets side by side, which numbers may
                         be compared, and whether these are proved not to rise
  plan enough FILE TYPE TICKS
                         how many cores of a type are enough for the bound to
                         be within so many ticks, all else as declared
  plan mend FILE OUT     a hand-edited graph file mended, into the new file OUT, and
                         what was done
  plan graph FILE        the graph file of a board text
  plan text FILE         the board text of a graph file
  plan help              this page
  plan version           the version
  plan install DIR       puts the command, the library and the header there

FILE is a graph file or a board text (docs/FILE.md, docs/BOARD.md); - is
standard input. With STAGE, the name or the number of a stage, and WCET, gains
are those of the graph in which this stage has this WCET. TYPE is the name or
the number of a type. OUT is a file that is not there yet. TIMES is a text of
lines NAME TICKS, or of a number for each stage; without it each stage takes
its WCET.

Exit status: 0 an answer; 1 the planner says no, and standard output says why:
the graph is refused, a run is late, or a text or an argument is at fault;
2 trouble, and standard error says which.
",
    )
}

pub fn version() -> bool {
    out::text(b"plan 1.0\n")
}
