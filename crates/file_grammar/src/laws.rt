//! What the form of messages owes its readers beyond one message: laws, with nothing to run.

ghost use Rattle.file_grammar.specs.Files.{FileLaw, HeadLaw, HourLaw, OnePartsLaw, PartsLaw};
ghost use Rattle.file_grammar.specs.FormBreaks.{FormBreakLaw};
ghost use Rattle.file_grammar.specs.Readings.{ReadingLaw};
ghost use Rattle.file_grammar.specs.Turns.{BreakLaw, ForwardLaw, NumbersLaw, TurnLaw};

/// That a reading is the message that its bytes spell, and no other. In memory, fields are read at a place
/// exactly where they are a message of the part there: each field in the order of a table of the part and with
/// what its row says, and the bytes up to the end their spelling.
pub fn readings_are_messages()
    ensures { ReadingLaw }
{}

/// That a message is read field by field, and a list number by number, each from the offset where the one before it ends: what is
/// read and the first break are those of the next field, of what it holds, and of what stands after it. Each field and each number
/// takes a byte at least.
pub fn messages_are_read_field_by_field()
    ensures turn { TurnLaw }
    ensures broken { BreakLaw }
    ensures forward { ForwardLaw }
    ensures numbers { NumbersLaw }
{}

/// That a break is told of a message exactly where it has a cause. Of bytes in memory, all fields before it are of good form, one
/// after the other, and there the next field stops by one of six causes, or the number or the list in it breaks.
pub fn breaks_have_their_causes()
    ensures { FormBreakLaw }
{}

/// That just a file has no break, and that it has its parts once. Bytes in memory have no break exactly where they
/// are a file of some version with some head, rules, marks and records, and they are one with no others. Those of good form always
/// have the parts of a file.
pub fn unbroken_bytes_are_files()
    ensures unbroken { FileLaw }
    ensures once { OnePartsLaw }
    ensures parts { PartsLaw }
{}

/// That the numbers of a head are good exactly where the head is, and that a number is that of an hour exactly where
/// its digits are those of an hour that the calendar has.
pub fn heads_are_their_numbers()
    ensures heads { HeadLaw }
    ensures hours { HourLaw }
{}
