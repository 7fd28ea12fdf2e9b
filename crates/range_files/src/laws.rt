ghost use Rattle.range_files.specs.Laws.{ReadIsFile, FileIsRead, OneBody, WrittenIsFile, WrittenIsRead};

/// Law: what is read from bytes is in the grammar.
pub fn read_is_file()
    ensures { ReadIsFile }
{}

/// Law: what is in the grammar is read.
pub fn file_is_read()
    ensures { FileIsRead }
{}

/// Law: a text is a file of at most one begin, end and list of pairs.
pub fn one_body()
    ensures { OneBody }
{}

/// Law: what is written is in the grammar.
pub fn written_is_file()
    ensures { WrittenIsFile }
{}

/// Law: what is written is read back.
pub fn written_is_read()
    ensures { WrittenIsRead }
{}
