//! The laws of the grammar: each is the contract of a function that does nothing.

ghost use Rattle.pef_script.specs.FaultLaw.{SomeFaults};
ghost use Rattle.pef_script.specs.LineLaw.{LinesAtTheEdge};
ghost use Rattle.pef_script.specs.Script.{FaultWhereNothingReads, ReadsScripts};
ghost use Rattle.pef_script.specs.SettingLaw.{SettingsAtTheEdge};
ghost use Rattle.pef_script.specs.WordLaw.{WordsAtTheEdge};
ghost use Rattle.pef_script.specs.WrittenLaw.{EachLineIsRead, ReadsOne, ReadsWhatCanBeWritten, ReadsWhatIsWritten, WritableIsCommand};

/// A text has a faulty line exactly where it reads as nothing.
pub fn fault_where_nothing_reads()
    ensures { FaultWhereNothingReads }
{}

/// Texts and their first faults, computed from the definitions.
pub fn some_faults()
    ensures { SomeFaults }
{}

/// Numbers, registers and pairs at the edge of the grammar.
pub fn words_at_the_edge()
    ensures { WordsAtTheEdge }
{}

/// The lines before the commands at the edge: each size, what is out of order, what stands twice.
pub fn settings_at_the_edge()
    ensures { SettingsAtTheEdge }
{}

/// Command lines at the edge: each command, with an operand more and one less.
pub fn lines_at_the_edge()
    ensures { LinesAtTheEdge }
{}

/// Each text reads as at most one script.
pub fn reads_one()
    ensures { ReadsOne }
{}

/// What is read is a script: its sizes are in their ranges, its lines are in their order, and each has one of its CPUs.
pub fn reads_scripts()
    ensures { ReadsScripts }
{}

/// The words that are written for a command line are read as it, with numbers in decimal or hexadecimal.
pub fn each_line_is_read()
    ensures { EachLineIsRead }
{}

/// The text that is written for a script reads as it, with numbers in decimal or hexadecimal.
pub fn reads_what_is_written()
    ensures { ReadsWhatIsWritten }
{}

/// What is read can be written, and its lines are lines of the text.
pub fn reads_what_can_be_written()
    ensures { ReadsWhatCanBeWritten }
{}

/// Each command that can be written is one that a history can have.
pub fn writable_is_command()
    ensures { WritableIsCommand }
{}
