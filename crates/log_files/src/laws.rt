ghost use Rattle.log_files.specs.Laws.{ReadIsLog, LogIsRead, OneLog, WrittenIsLog, WrittenIsRead};

/// Law: what is read from bytes is in the grammar.
pub fn read_is_log()
    ensures { ReadIsLog }
{}

/// Law: what is in the grammar is read.
pub fn log_is_read()
    ensures { LogIsRead }
{}

/// Law: a text is a file of at most one list of batches.
pub fn one_log()
    ensures { OneLog }
{}

/// Law: what is written is in the grammar.
pub fn written_is_log()
    ensures { WrittenIsLog }
{}

/// Law: what was written is read back.
pub fn written_is_read()
    ensures { WrittenIsRead }
{}
